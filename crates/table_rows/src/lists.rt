// The check on a list: which of its rows is at or below a tuple.
ghost use Rattle.std.specs.Prelude.{◌≡◌, ◌*◌, ◌≤◌, ◌<◌, length};
ghost use Rattle.definitions.specs.System as system;
ghost use Rattle.definitions.specs.Highest as paper;
ghost use Rattle.definitions.specs.Tables.{at};
ghost use Rattle.table_rows.specs.Places.{place_of};
ghost use Rattle.table_rows.specs.Rows.{tuple};

// Whether one of the first `found` rows of w numbers is at or below `t`.
pub fn covered(list: &[u32], found: usize, w: usize, t: &[u32]) -> bool
    requires { (0 < w) × (w ≤ length t.now) × (found * w ≤ length list.now) }
    ensures { result ≡ system.covered w found (at list.now w) (tuple t.now) }
{
    highest(list, found, w, t).is_some()
}

// The highest place, from 1, of such a row. The newest rows come first: it is they that most often are at or below `t`. Most rows fail at their first
// component, so that of `t` is kept at hand: the compiler then takes the first turn of the inner loop out of it.
pub fn highest(list: &[u32], found: usize, w: usize, t: &[u32]) -> Option<usize>
    requires { (0 < w) × (w ≤ length t.now) × (found * w ≤ length list.now) }
    ensures { place_of result ≡ paper.highest w found (at list.now w) (tuple t.now) }
{
    let first = t[0];
    let mut verdict = None;
    let mut rest = found * w;
    // a row's width down at each turn: `for i in (0..found).rev()` multiplies at each row, 9 instructions in the place of 6 (tried)
    'rows: while 0 < rest {
        rest -= w;
        for j in 0..w {
            let x = if j == 0 { first } else { t[j] };
            if x < list[rest + j] {
                continue 'rows;
            }
        }
        let place = rest / w + 1;
        verdict = Some(place);
        break 'rows;
    }
    verdict
}

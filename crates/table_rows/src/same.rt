// Which of the rows of a list is a tuple.
ghost use Rattle.std.specs.Prelude.{◌≡◌, ◌*◌, ◌≤◌, ◌<◌, length};
ghost use Rattle.definitions.specs.Reasons as paper;
ghost use Rattle.definitions.specs.Tables.{at};
ghost use Rattle.table_rows.specs.Places.{place_of};
ghost use Rattle.table_rows.specs.Rows.{tuple};

// The highest place, from 1, of one of the first `found` rows of w numbers that is `t`.
pub fn standing(list: &[u32], found: usize, w: usize, t: &[u32]) -> Option<usize>
    requires { (0 < w) × (w ≤ length t.now) × (found * w ≤ length list.now) }
    ensures { place_of result ≡ paper.standing w found (at list.now w) (tuple t.now) }
{
    let mut verdict = None;
    let mut rest = found * w;
    // as in `lists::highest`, whose laws (proofs/Search.antt) it shares
    'rows: while 0 < rest {
        rest -= w;
        for j in 0..w {
            if list[rest + j] != t[j] {
                continue 'rows;
            }
        }
        let place = rest / w + 1;
        verdict = Some(place);
        break 'rows;
    }
    verdict
}

// Which unknowns make a child of the row that a step takes off. The kind of the walk decides which candidates the cap and the second list leave open,
// and what of a tuple is compared with the first list.
#![tactic(auto)]

ghost use Rattle.std.specs.Prelude.{◌≡◌, [], ◌+◌, ◌*◌, ◌-◌, ◌^◌, ◌≤◌, ◌<◌, length};
ghost use Rattle.linear.specs.Tuples.{AtOrBelow, raise};
ghost use Rattle.definitions.specs.Input.{bound_of};
ghost use Rattle.definitions.specs.System.{above, capped, covered};
ghost use Rattle.definitions.specs.Tables.{at, capacity};
ghost use Rattle.definitions.specs.Step.{marks_to, row_width};
ghost use Rattle.laws.specs.RefusalLaws.{Inside, SecondFits};
ghost use Rattle.table_rows.specs.Rows.{Limited, Within, part, tuple};
ghost use Rattle.products.specs.Marks.{Marked};
ghost use Rattle.candidates.specs.Kinds.{Bounds, asked, kind_by};
ghost use Rattle.candidates.specs.Grow.{child_by, child_for, open_for};
ghost use Rattle.candidates.specs.Open.{Differs};
ghost use Rattle.candidates.specs.Tried.{tried_by};

use calls::Refusal;

// The kinds of walk: plain, with a first unknown that is never raised past 1, and above a lower bound. A run has one of five kinds (`calls::RunKind`):
// one from a lower bound has a plain walk and then one above the bound, and one by desks has none of these. specs/Kinds.antt has what they are in the
// definitions.
#[derive(Clone, Copy)]
pub enum Kind<'a> {
    Plain,
    Capped,
    Above(&'a [u32]),
}

// Which of the candidates make a child of the tuple `t`, as marks: those that the cap and the second list leave open are put to the first list. Refused
// where a child would have a component above the limit.
pub fn admitted(
    kind: Kind,
    list: &[u32],
    second: &[u32],
    found: usize,
    other: usize,
    q: usize,
    t: &mut [u32],
    candidates: u32,
    limit: u32,
) -> Result<u32, Refusal>
    requires q_nonzero { ((0 < row_width (kind_by kind) q) × (q ≤ 16) × (found ≤ capacity (row_width (kind_by kind) q) list.now)) × Bounds kind q }
    requires second_fits { SecondFits (kind_by kind) q (asked [] list.now second.now 0 found other) × (q ≤ length t.old) × (candidates < 2 ^ q) }
    requires limited { Limited q (tuple t.old) × Within limit q (tuple t.old) × Inside (kind_by kind) q (tuple t.old) }
    ensures value { result ≡ tried_by limit q
        (child_for (kind_by kind.entry) q (asked [] list.now second.now 0 found other) (tuple t.old) candidates) (tuple t.old) }
    ensures t_unchanged { t.new ≡ t.old }
{
    match kind {
        Kind::Plain => passed(list, found, q, 0, q, t, candidates, limit),
        Kind::Capped => {
            let left = uncapped(second, other, q, t, candidates);
            passed(list, found, q - 1, 1, q, t, left, limit)
        }
        Kind::Above(lower) => {
            let left = apart(second, lower, other, q, t, candidates);
            passed(list, found, q, 0, q, t, left, limit)
        }
    }
}

// Which of the candidates of a capped walk the cap and the second list leave open. The list stops only tuples with 1 at the first place.
fn uncapped(second: &[u32], found: usize, q: usize, t: &mut [u32], candidates: u32) -> u32
    requires nonzero { ((0 < q - 1) × (q ≤ 16) × (found * (q - 1) ≤ length second.now)) × (q ≤ length t.old) × (candidates < 2 ^ q) }
    requires limited { Limited q (tuple t.old) × (tuple t.old 0 ≤ 1) }
    ensures marked { Marked q (open_for capped q (asked [] [] second.now 0 0 found) (tuple t.old) candidates) result }
    ensures t_unchanged { t.new ≡ t.old }
{
    let first = candidates % 2;
    if t[0] == 0 {
        if first == 0 {
            return candidates;
        }
        return candidates - first + unstopped(second, found, q - 1, 1, q, t, first);
    }
    unstopped(second, found, q - 1, 1, q, t, candidates - first)
}

// Those of a walk above a lower bound: the second list is asked for the tuple less the bound.
fn apart(second: &[u32], lower: &[u32], found: usize, q: usize, t: &[u32], candidates: u32) -> u32
    requires q_nonzero { ((0 < q) × (q ≤ 16) × (found * q ≤ length second.now)) × (q ≤ length lower.now) × (q ≤ length t.now) × (candidates < 2 ^ q) }
    requires limited { Limited q (tuple t.now) × AtOrBelow q (bound_of lower.now) (tuple t.now) }
    ensures { Marked q
        (open_for (above (bound_of lower.now)) q (asked [] [] second.now 0 0 found) (tuple t.now) candidates) result }
{
    let mut over = [0u32; 16];
    subtract(t, lower, q, &mut over);
    unstopped(second, found, q, 0, q, &mut over, candidates)
}

// Writes the tuple less the bound.
fn subtract(t: &[u32], lower: &[u32], q: usize, over: &mut [u32; 16])
    requires { ((q ≤ 16) × (q ≤ length lower.now) × (q ≤ length t.now) × (length over.old ≡ 16)) × AtOrBelow q (bound_of lower.now) (tuple t.now) }
    ensures { Differs q (tuple t.now) (bound_of lower.now) over.new }
{
    for j in 0..q {
        over[j] = t[j] - lower[j];
    }
}

// Which of the `candidates` of q unknowns a list leaves. Its rows of w numbers stand for those of a tuple from place `from` on. The loop takes the marks of
// a word, the lowest first, and counts nothing.
fn unstopped(
    list: &[u32],
    found: usize,
    w: usize,
    from: usize,
    q: usize,
    t: &mut [u32],
    candidates: u32,
) -> u32
    requires w_nonzero { ((0 < w) × (from + w ≤ q)) × (q ≤ 16) × (found * w ≤ length list.now) × (q ≤ length t.old) × (candidates < 2 ^ q) }
    requires limited { Limited q (tuple t.old) }
    ensures value { result ≡ marks_to q (child_by w from found (at list.now w) (tuple t.old) candidates) }
    ensures t_unchanged { t.new ≡ t.old }
{
    let mut left: u32 = 0;
    let mut rest = candidates;
    while rest != 0 {
        let i = u32::trailing_zeros(rest) as usize;
        let bit: u32 = 1 << i;
        rest -= bit;
        if !blocked(list, found, w, from, t, i) {
            left += bit;
        }
    }
    left
}

// Which of the candidates that are left open make a child. Not `unstopped` and then a test of what it leaves: of a plain walk most of its time goes into
// this loop, which tries the limit in the turn of a candidate, and is compiled into each kind's arm, where the rows' width is at hand.
#[inline(always)]
fn passed(
    list: &[u32],
    found: usize,
    w: usize,
    from: usize,
    q: usize,
    t: &mut [u32],
    left: u32,
    limit: u32,
) -> Result<u32, Refusal>
    requires w_nonzero { ((0 < w) × (from + w ≤ q)) × (q ≤ 16) × (found * w ≤ length list.now) × (q ≤ length t.old) × (left < 2 ^ q) }
    requires limited { Limited q (tuple t.old) × Within limit q (tuple t.old) }
    ensures value { result ≡ tried_by limit q (child_by w from found (at list.now w) (tuple t.old) left) (tuple t.old) }
    ensures t_unchanged { t.new ≡ t.old }
{
    let mut made: u32 = 0;
    let mut rest = left;
    while rest != 0 {
        let i = u32::trailing_zeros(rest) as usize;
        let bit: u32 = 1 << i;
        rest -= bit;
        if blocked(list, found, w, from, t, i) {
            continue;
        }
        if limit <= t[i] {
            return Err(Refusal::ComponentLimit);
        }
        made += bit;
    }
    Ok(made)
}

// Whether the list has a row at or below the numbers of `t` from place `from` on, with component i raised by one; `t` is as before afterwards.
fn blocked(list: &[u32], found: usize, w: usize, from: usize, t: &mut [u32], i: usize) -> bool
    requires { (i < length t.old) × (0 < w) × (from + w ≤ length t.old) × (found * w ≤ length list.now) × (tuple t.old i + 1 < 2 ^ 32) }
    ensures value { result ≡ covered w found (at list.now w) (part from (raise (tuple t.old) i)) }
    ensures t_unchanged { t.new ≡ t.old }
{
    t[i] += 1;
    let r = table_rows::lists::covered(list, found, w, &t[from..]);
    t[i] -= 1;
    r
}

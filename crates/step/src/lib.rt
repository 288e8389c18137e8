// One step of a walk, the count of steps aside. Which unknowns make a child is found before anything is written.
#![tactic(auto)]

ghost use Rattle.std.specs.Prelude.{[], ◌+◌, ◌≤◌, ◌<◌, length};
ghost use Rattle.definitions.specs.Step.{row_width};
ghost use Rattle.table_rows.specs.Rows.{part, tuple};
ghost use Rattle.candidates.specs.Kinds.{Bounds, asked, kind_by};
ghost use Rattle.step.specs.Enlisting.{Appended, Enlisted};
ghost use Rattle.step.specs.Taken.{Standing, Taken};

use calls::Refusal;
use candidates::Kind;

pub mod children; // children.rt: the children of the row taken off

// What a step that is not refused came to: a solution listed in the first or the second list, or children written up to a height.
#[derive(Clone, Copy)]
pub enum Stepped {
    Listed,
    ListedSecond,
    Grown(usize),
}

// One step from a height above 0. `inner` holds the inner products of the rows on the stack, `sums` their sums of components; what `top` holds is of no
// meaning.
pub fn take(
    kind: Kind,
    q: usize,
    gram: &[i64; 256],
    stack: &mut [u32],
    list: &mut [u32],
    second: &mut [u32],
    inner: &mut [i64; 256],
    sums: &mut [u64; 16],
    top: &mut [u32],
    height: usize,
    found: usize,
    other: usize,
    limit: u32,
) -> Result<Stepped, Refusal>
    requires standing { Standing (kind_by kind) limit q gram.now (asked stack.old list.old second.old height found other) inner.old sums.old }
    requires bounds { Bounds kind q × (q ≤ length top.old) }
    ensures { Taken (kind_by kind.entry) limit q gram.now
        (asked stack.old list.old second.old height found other) result stack.new list.new second.new
        inner.new sums.new }
{
    let level = height - 1;
    let base = level * (q + 1);
    if products::vanish(inner, level, q) {
        table_rows::rows::read(stack, base, q, top);
        return enlist(kind, list, second, found, other, q, top);
    }
    let marks = stack[base + q];
    let left = products::candidate_marks(inner, level, q, marks);
    if left == 0 {
        return Ok(Stepped::Grown(level));
    }
    let made = candidates::admitted(
        kind,
        list,
        second,
        found,
        other,
        q,
        &mut stack[base..],
        left,
        limit,
    )?;
    Ok(Stepped::Grown(children::push(q, gram, stack, inner, sums, level, top, marks, made)))
}

// Lists a solution where its list has room: of a capped walk without the first component, which says which list it is.
fn enlist(
    kind: Kind,
    list: &mut [u32],
    second: &mut [u32],
    found: usize,
    other: usize,
    q: usize,
    t: &[u32],
) -> Result<Stepped, Refusal>
    requires { (0 < row_width (kind_by kind) q) × (q ≤ length t.now) }
    ensures { Enlisted (kind_by kind.entry) q (asked [] list.old second.old 0 found other) (tuple t.now) list.new second.new result }
{
    match kind {
        Kind::Plain | Kind::Above(_) => append(list, found, q, 0, t, Stepped::Listed),
        Kind::Capped if t[0] == 0 => append(list, found, q - 1, 1, t, Stepped::Listed),
        Kind::Capped => append(second, other, q - 1, 1, t, Stepped::ListedSecond),
    }
}

// Writes w numbers of `t`, those from place `from` on, as the next row of a list that has room for it.
fn append(
    list: &mut [u32],
    found: usize,
    w: usize,
    from: usize,
    t: &[u32],
    done: Stepped,
) -> Result<Stepped, Refusal>
    requires { (0 < w) × (from + w ≤ length t.now) }
    ensures { Appended w found (part from (tuple t.now)) list.old list.new done result }
{
    if list.len() / w <= found {
        return Err(Refusal::ListFull);
    }
    table_rows::rows::write(list, found * w, w, &t[from..]);
    Ok(done)
}

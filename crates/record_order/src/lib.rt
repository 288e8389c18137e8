// A run record and tables in order: refusal 6, by the kind of run.
#![tactic(auto)]

ghost use Rattle.std.specs.Prelude.{◌≡◌, ◌+◌, ◌*◌, ◌≤◌, ◌<◌, leb, length};
ghost use Rattle.linear.specs.Tests.{all_to, count_to};
ghost use Rattle.definitions.specs.Input.{bound_of};
ghost use Rattle.definitions.specs.Refusals.{row_fits};
ghost use Rattle.definitions.specs.System.{is_at_or_below};
ghost use Rattle.definitions.specs.Tables.{at, frozen};
ghost use Rattle.calls.specs.Paper.{kind_of, run_of};
ghost use Rattle.record_order.specs.Order.{InShape, above_fits, above_walk_fits, capped_fits, lower_fits, plain_walk_fits, record_fits};

use calls::{Record, RunKind};
use table_rows::rows;

// Whether record and rows are in order for a run of a kind, on q unknowns and with rows of `width` numbers in the list.
pub fn in_order(
    kind: RunKind,
    q: usize,
    width: usize,
    stack: &[u32],
    list: &[u32],
    r: Record,
    limit: u32,
) -> bool
    requires { (1 ≤ width) × InShape q (length stack.now) }
    ensures { result ≡ record_fits (kind_of kind) q width limit stack.now list.now (run_of r) }
{
    let own = r.kind;
    let height = r.height;
    let found = r.found.0;
    let steps = r.steps.0;
    let deepest = r.deepest;
    if !calls::same_run(own, kind) {
        return false;
    }
    if q < height {
        return false;
    }
    if calls::STEP_LIMIT < steps {
        return false;
    }
    if calls::DEEPEST_LIMIT < deepest {
        return false;
    }
    if list.len() / width < found {
        return false;
    }
    rows_in_order(q, stack, height, limit)
}

// What a capped run on q unknowns is asked besides: the count of the second list within its room, and every first component at most 1.
pub fn capped_fits(q: usize, width: usize, stack: &[u32], second: &[u32], r: Record) -> bool
    requires { (1 ≤ width) × (r.height ≤ q) × InShape q (length stack.now) }
    ensures { result ≡ capped_fits q width stack.now second.now (run_of r) }
{
    let height = r.height;
    let count = r.found2.0;
    if second.len() / width < count {
        return false;
    }
    firsts_fit(q, stack, height)
}

// Whether the first component of each of the first `height` rows is at most 1.
fn firsts_fit(q: usize, stack: &[u32], height: usize) -> bool
    requires { (q ≤ 16) × (height * (q + 1) ≤ length stack.now) }
    ensures { result ≡ all_to height (λ k. leb (at stack.now (q + 1) k 0) 1) }
{
    (0..height).all(|k| stack[k * (q + 1)] <= 1)
}

// Whether the first `height` rows are in order, with components up to the limit.
fn rows_in_order(q: usize, stack: &[u32], height: usize, limit: u32) -> bool
    requires { (q ≤ 16) × (height * (q + 1) ≤ length stack.now) }
    ensures { result ≡ all_to height (row_fits limit q stack.now) }
{
    (0..height).all(|k| row_in_order(q, stack, k, limit))
}

// Whether row `k` is in order: components, marks within the unknowns, and k marks.
fn row_in_order(q: usize, stack: &[u32], k: usize, limit: u32) -> bool
    requires { (q ≤ 16) × (k * (q + 1) + q < length stack.now) }
    ensures { result ≡ row_fits limit q stack.now k }
{
    let base = k * (q + 1);
    if !rows::small_at(stack, base, q, limit) {
        return false;
    }
    let marks = stack[base + q];
    let past: u32 = 1 << q;
    if past <= marks {
        return false;
    }
    count_marks(marks) == k
}

// How many marks are set, one after the other: rows have few, and the machine that every caller has counts no bits in one instruction.
fn count_marks(marks: u32) -> usize
    ensures { result ≡ count_to 32 (frozen marks) }
{
    let mut rest = marks;
    let mut n: usize = 0;
    while rest != 0 {
        let bit: u32 = 1 << u32::trailing_zeros(rest);
        rest -= bit;
        n += 1;
    }
    n
}

// Whether record and tables of a run from a lower bound are in order, by the walk that the record names.
pub fn lower_in_order(
    q: usize,
    lower: &[u32],
    stack: &[u32],
    list: &[u32],
    second: &[u32],
    r: Record,
    limit: u32,
) -> bool
    requires { InShape q (length stack.now) × (length lower.now ≡ q) }
    ensures { result ≡ lower_fits (run_of r).kind q limit lower.now stack.now list.now second.now (run_of r) }
{
    match r.kind {
        RunKind::LowerPlain => plain_walk_fits(q, stack, list, second, r, limit),
        RunKind::LowerAbove => above_walk_fits(q, lower, stack, list, second, r, limit),
        RunKind::Plain | RunKind::Capped | RunKind::Desks => false,
    }
}

// Its plain walk, and of the other its list's count and its steps.
fn plain_walk_fits(
    q: usize,
    stack: &[u32],
    list: &[u32],
    second: &[u32],
    r: Record,
    limit: u32,
) -> bool
    requires { InShape q (length stack.now) }
    ensures { result ≡ plain_walk_fits q limit stack.now list.now second.now (run_of r) }
{
    let found = r.found.0;
    let steps = r.steps.0;
    let part = calls::plain_part(r);
    if !in_order(RunKind::Plain, q, q, stack, second, part, limit) {
        return false;
    }
    if list.len() / q < found {
        return false;
    }
    steps <= calls::STEP_LIMIT
}

// Its walk above the bound, and the steps of the plain one.
fn above_walk_fits(
    q: usize,
    lower: &[u32],
    stack: &[u32],
    list: &[u32],
    second: &[u32],
    r: Record,
    limit: u32,
) -> bool
    requires { InShape q (length stack.now) × (length lower.now ≡ q) }
    ensures { result ≡ above_walk_fits q limit lower.now stack.now list.now second.now (run_of r) }
{
    let steps2 = r.steps2.0;
    if !in_order(RunKind::LowerAbove, q, q, stack, list, r, limit) {
        return false;
    }
    if !above_fits(q, lower, stack, second, r) {
        return false;
    }
    steps2 <= calls::STEP_LIMIT
}

// What a walk above a lower bound is asked besides: the count of the second list within its room, and every row at or above the bound.
fn above_fits(q: usize, lower: &[u32], stack: &[u32], second: &[u32], r: Record) -> bool
    requires { (r.height ≤ q) × InShape q (length stack.now) × (length lower.now ≡ q) }
    ensures { result ≡ above_fits q lower.now stack.now second.now (run_of r) }
{
    let height = r.height;
    let count = r.found2.0;
    if second.len() / q < count {
        return false;
    }
    rows_above(q, lower, stack, height)
}

// Whether the first `height` rows are at or above the bound.
fn rows_above(q: usize, lower: &[u32], stack: &[u32], height: usize) -> bool
    requires { (q ≤ 16) × (height * (q + 1) ≤ length stack.now) × (length lower.now ≡ q) }
    ensures { result ≡ all_to height (λ k. is_at_or_below q (bound_of lower.now) (at stack.now (q + 1) k)) }
{
    (0..height).all(|k| row_above(q, lower, stack, k))
}

// Whether row `k` is.
fn row_above(q: usize, lower: &[u32], stack: &[u32], k: usize) -> bool
    requires { (q ≤ 16) × (k * (q + 1) + q < length stack.now) × (length lower.now ≡ q) }
    ensures { result ≡ is_at_or_below q (bound_of lower.now) (at stack.now (q + 1) k) }
{
    let base = k * (q + 1);
    (0..q).all(|j| lower[j] <= stack[base + j])
}

// The two walks of a run from a lower bound (document 02, Job 4), once its checks have let it go on:
// the plain one into the second list, and then, with what is left of the budget, the one above the bound.
ghost use Rattle.std.specs.Prelude.{◌≡◌, ◌-◌, ◌≤◌, ◌<◌, length};
ghost use Rattle.definitions.specs.Calls.{machine_from};
ghost use Rattle.definitions.specs.Input.{alone, bound_of, input_with};
ghost use Rattle.definitions.specs.Machine as paper;
ghost use Rattle.definitions.specs.Tables.{lower_above, lower_plain, write_row};
ghost use Rattle.laws.specs.LowerLaws.{ValidFrom};
ghost use Rattle.calls.specs.Paper.{kind_of, outcome_with, state_with};
ghost use Rattle.walk.specs.Lower.{run_by};

use calls::{Answer, Outcome, Record, RunKind};
use candidates::Kind;

// By the walk that the record names.
pub fn walk_from(
    p: usize,
    q: usize,
    coefs: &[i32],
    lower: &[u32],
    stack: &mut [u32],
    list: &mut [u32],
    second: &mut [u32],
    r: Record,
    budget: u64,
    limit: u32,
) -> Outcome
    requires { ValidFrom lower.now (input_with alone limit p q coefs.now) (state_with stack.old list.old second.old r) }
    ensures { outcome_with result stack.new list.new second.new
        ≡ paper.walk budget (machine_from lower.now (input_with alone limit p q coefs.now))
        (state_with stack.old list.old second.old r) }
{
    if r.kind == RunKind::LowerPlain {
        return both(p, q, coefs, lower, stack, list, second, r, budget, limit);
    }
    further(p, q, coefs, lower, stack, list, second, r, budget, limit)
}

// The walk above the bound.
fn further(
    p: usize,
    q: usize,
    coefs: &[i32],
    lower: &[u32],
    stack: &mut [u32],
    list: &mut [u32],
    second: &mut [u32],
    r: Record,
    budget: u64,
    limit: u32,
) -> Outcome
    requires { ValidFrom lower.now (input_with alone limit p q coefs.now) (state_with stack.old list.old second.old r)
        × (kind_of r.kind ≡ lower_above) }
    ensures { outcome_with result stack.new list.new second.new
        ≡ paper.walk budget (machine_from lower.now (input_with alone limit p q coefs.now))
        (state_with stack.old list.old second.old r) }
{
    let most = calls::limit_of(limit);
    walking::walk_system(
        Kind::Above(lower),
        p,
        q,
        coefs,
        stack,
        list,
        second,
        r,
        budget,
        most,
    )
}

// The plain walk, and where it completes the other one.
fn both(
    p: usize,
    q: usize,
    coefs: &[i32],
    lower: &[u32],
    stack: &mut [u32],
    list: &mut [u32],
    second: &mut [u32],
    r: Record,
    budget: u64,
    limit: u32,
) -> Outcome
    requires { ValidFrom lower.now (input_with alone limit p q coefs.now) (state_with stack.old list.old second.old r)
        × (kind_of r.kind ≡ lower_plain) }
    ensures { outcome_with result stack.new list.new second.new
        ≡ paper.walk budget (machine_from lower.now (input_with alone limit p q coefs.now))
        (state_with stack.old list.old second.old r) }
{
    let most = calls::limit_of(limit);
    let plain = calls::plain_part(r);
    let o = walking::walk_system(
        Kind::Plain,
        p,
        q,
        coefs,
        stack,
        second,
        list,
        plain,
        budget,
        most,
    );
    let part = o.run;
    match o.answer {
        Answer::Complete => {
            let left = budget - (part.steps.0 - r.steps2.0);
            write_lower(stack, q, lower);
            let next = run_by(RunKind::LowerAbove, 1, part, r.deepest);
            further(p, q, coefs, lower, stack, list, second, next, left, limit)
        }
        answer => {
            let run = run_by(RunKind::LowerPlain, part.height, part, r.deepest);
            Outcome { answer, run }
        }
    }
}

// The record of the run from that of its plain walk: before the change of walk, which changes no count, and after it.
fn run_by(kind: RunKind, height: usize, part: Record, deepest: u64) -> Record
    ensures { result ≡ run_by kind height part deepest }
{
    let (found, steps) = (part.found2, part.steps2);
    Record::of(kind, height, found, steps, part.found, part.steps, deepest)
}

// Writes the first row: the lower bound, and no marks.
fn write_lower(stack: &mut [u32], q: usize, lower: &[u32])
    requires { (q < length stack.old) × (q ≤ length lower.now) }
    ensures { stack.new ≡ write_row q stack.old 0 (bound_of lower.now) 0 }
{
    table_rows::rows::write(stack, 0, q, lower);
    stack[q] = 0;
}

// The starts: plain, from a lower bound, and of a capped run. Each takes the run record by value and returns what it leaves.
#![tactic(auto)]

ghost use Rattle.std.specs.Prelude.{◌≡◌, ℕ};
ghost use Rattle.definitions.specs.Calls.{start, start_from};
ghost use Rattle.definitions.specs.Input.{alone, input_with, rights as sides};
ghost use Rattle.calls.specs.Paper.{state_of, state_with, outcome_of, outcome_with};

use calls::{Outcome, Record, RunKind};

mod rows; // rows.rt: the rows that the starts write

// The plain start; it does not depend on the limit of components.
pub fn started(
    p: usize,
    q: usize,
    coefs: &[i32],
    stack: &mut [u32],
    list: &mut [u32],
    r: Record,
) -> Outcome
    ensures { (limit : ℕ)
        → outcome_of result stack.new list.new
        ≡ start (input_with alone limit p q coefs.now) (state_of stack.old list.old r) }
{
    if let Err(why) = checks::check_start(p, q, coefs, stack, list, r) {
        return calls::refused(why, r);
    }
    rows::write_units(stack, q);
    calls::begun(RunKind::Plain, q)
}

// The start of a run from a lower bound: it writes as a plain one.
pub fn started_from(
    p: usize,
    q: usize,
    coefs: &[i32],
    lower: &[u32],
    stack: &mut [u32],
    list: &mut [u32],
    second: &mut [u32],
    r: Record,
    limit: u32,
) -> Outcome
    ensures { outcome_with result stack.new list.new second.new
        ≡ start_from lower.now (input_with alone limit p q coefs.now)
        (state_with stack.old list.old second.old r) }
{
    if let Err(why) = checks::check_start_from(p, q, coefs, lower, stack, list, second, r, limit) {
        return calls::refused(why, r);
    }
    rows::write_units(stack, q);
    calls::begun(RunKind::LowerPlain, q)
}

// The start of a capped run; it does not depend on the limit of components.
pub fn started_capped(
    p: usize,
    q: usize,
    coefs: &[i32],
    rights: &[i32],
    stack: &mut [u32],
    list: &mut [u32],
    second: &mut [u32],
    r: Record,
) -> Outcome
    ensures { (limit : ℕ)
        → outcome_with result stack.new list.new second.new
        ≡ start (input_with (sides rights.now) limit p q coefs.now)
        (state_with stack.old list.old second.old r) }
{
    if let Err(why) = checks::check_start_capped(p, q, coefs, rights, stack, list, second, r) {
        return calls::refused(why, r);
    }
    let wide = q + 1;
    rows::write_units(stack, wide);
    calls::begun(RunKind::Capped, wide)
}

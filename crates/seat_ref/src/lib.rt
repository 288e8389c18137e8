// The calls of the training seat as an editor uses them: the caller's own run record is advanced through a reference, over the calls by value of crate
// `training`.
#![tactic(auto)]

ghost use Rattle.std.specs.Prelude.{◌≡◌};
ghost use Rattle.calls.specs.Paper.{left_by, left_with, state_of, state_with};
ghost use Rattle.seat_spec.specs.Training.{seat_input, seat_resume, seat_resume_from, seat_start, seat_start_from};

use calls::{Answer, Record};

// The plain start.
pub fn start(
    p: usize,
    q: usize,
    coefs: &[i32],
    stack: &mut [u32],
    list: &mut [u32],
    r: &mut Record,
) -> Answer
    ensures { left_by result stack.new list.new r.new ≡
        seat_start (seat_input p q coefs.now) (state_of stack.old list.old r.old) }
{
    let o = seat::started(p, q, coefs, stack, list, *r);
    *r = o.run;
    o.answer
}

// The start of a run from a lower bound.
pub fn start_from(
    p: usize,
    q: usize,
    coefs: &[i32],
    lower: &[u32],
    stack: &mut [u32],
    list: &mut [u32],
    second: &mut [u32],
    r: &mut Record,
) -> Answer
    ensures { left_with result stack.new list.new second.new r.new ≡
        seat_start_from lower.now (seat_input p q coefs.now)
        (state_with stack.old list.old second.old r.old) }
{
    let o = seat::started_from(p, q, coefs, lower, stack, list, second, *r);
    *r = o.run;
    o.answer
}

// The continuing call of a plain run.
pub fn resume(
    p: usize,
    q: usize,
    coefs: &[i32],
    stack: &mut [u32],
    list: &mut [u32],
    r: &mut Record,
    budget: u64,
) -> Answer
    ensures { left_by result stack.new list.new r.new ≡
        seat_resume budget (seat_input p q coefs.now) (state_of stack.old list.old r.old) }
{
    let o = seat::resumed(p, q, coefs, stack, list, *r, budget);
    *r = o.run;
    o.answer
}

// The continuing call of a run from a lower bound: it is handed the lower bound anew.
pub fn resume_from(
    p: usize,
    q: usize,
    coefs: &[i32],
    lower: &[u32],
    stack: &mut [u32],
    list: &mut [u32],
    second: &mut [u32],
    r: &mut Record,
    budget: u64,
) -> Answer
    ensures { left_with result stack.new list.new second.new r.new ≡
        seat_resume_from budget lower.now (seat_input p q coefs.now)
        (state_with stack.old list.old second.old r.old) }
{
    let o = seat::resumed_from(p, q, coefs, lower, stack, list, second, *r, budget);
    *r = o.run;
    o.answer
}

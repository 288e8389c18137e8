// The calls of the training seat on a record of words, with an answer that is one number.
// The calls here and in c_walk are not one function over the call by value: what they share, reading the record and telling what came of it, is c_record's
// `read` and `tell`. The rest is the call itself, and a contract over any call would ask and say more than these three lines do.
#![tactic(auto)]

ghost use Rattle.std.specs.Prelude.{◌≡◌};
ghost use Rattle.c_seat.specs.SeatWords.{seat_resume_bounded, seat_resume_words, seat_start_bounded, seat_start_words};

use c_record::{tell, words};

// The plain start.
pub fn start(
    p: usize,
    q: usize,
    coefs: &[i32],
    stack: &mut [u32],
    list: &mut [u32],
    run: &mut [u64],
) -> u64
    ensures { (result, (stack.new, (list.new, run.new))) ≡
        seat_start_words p q coefs.now stack.old list.old run.old }
{
    if run.len() == 7 {
        let r = words::read(run);
        let o = seat::started(p, q, coefs, stack, list, r);
        return tell(o, run);
    }
    resume(p, q, coefs, stack, list, run, 0)
}

// The start of a run from a lower bound.
pub fn start_from(
    p: usize,
    q: usize,
    coefs: &[i32],
    lower: &[u32],
    stack: &mut [u32],
    list: &mut [u32],
    second: &mut [u32],
    run: &mut [u64],
) -> u64
    ensures { (result, (stack.new, (list.new, (second.new, run.new)))) ≡
        seat_start_bounded p q coefs.now lower.now stack.old list.old second.old run.old }
{
    if run.len() == 7 {
        let r = words::read(run);
        let o = seat::started_from(p, q, coefs, lower, stack, list, second, r);
        return tell(o, run);
    }
    resume_from(p, q, coefs, lower, stack, list, second, run, 0)
}

// The continuing call of a plain run.
pub fn resume(
    p: usize,
    q: usize,
    coefs: &[i32],
    stack: &mut [u32],
    list: &mut [u32],
    run: &mut [u64],
    budget: u64,
) -> u64
    ensures { (result, (stack.new, (list.new, run.new))) ≡
        seat_resume_words budget p q coefs.now stack.old list.old run.old }
{
    let r = words::read(run);
    let o = seat::resumed(p, q, coefs, stack, list, r, budget);
    tell(o, run)
}

// The continuing call of a run from a lower bound.
pub fn resume_from(
    p: usize,
    q: usize,
    coefs: &[i32],
    lower: &[u32],
    stack: &mut [u32],
    list: &mut [u32],
    second: &mut [u32],
    run: &mut [u64],
    budget: u64,
) -> u64
    ensures { (result, (stack.new, (list.new, (second.new, run.new)))) ≡
        seat_resume_bounded budget p q coefs.now lower.now
        stack.old list.old second.old run.old }
{
    let r = words::read(run);
    let o = seat::resumed_from(p, q, coefs, lower, stack, list, second, r, budget);
    tell(o, run)
}

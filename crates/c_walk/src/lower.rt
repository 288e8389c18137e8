// A run from a lower bound: the start and the continuing call on a record of words, with an answer that is one number.
// The calls here and in rights.rt are not one function over the call by value: what they share, reading the record and telling what came of it, is c_record's
// `read` and `tell`. The rest is the call itself, and a contract over any call would ask and say more than these three lines do.
ghost use Rattle.std.specs.Prelude.{◌≡◌};
ghost use Rattle.c_walk.specs.Lower.{start_bounded, resume_bounded};

use c_record::{tell, words};

// The start.
pub fn start_from(
    p: usize,
    q: usize,
    coefs: &[i32],
    lower: &[u32],
    stack: &mut [u32],
    list: &mut [u32],
    second: &mut [u32],
    run: &mut [u64],
) -> u64
    ensures { (result, (stack.new, (list.new, (second.new, run.new)))) ≡
        start_bounded p q coefs.now lower.now stack.old list.old second.old run.old }
{
    if run.len() == 7 {
        let r = words::read(run);
        let most = calls::COMPONENT_LIMIT;
        let o = starts::started_from(p, q, coefs, lower, stack, list, second, r, most);
        return tell(o, run);
    }
    resume_from(p, q, coefs, lower, stack, list, second, run, 0)
}

// The continuing call.
pub fn resume_from(
    p: usize,
    q: usize,
    coefs: &[i32],
    lower: &[u32],
    stack: &mut [u32],
    list: &mut [u32],
    second: &mut [u32],
    run: &mut [u64],
    budget: u64,
) -> u64
    ensures { (result, (stack.new, (list.new, (second.new, run.new)))) ≡
        resume_bounded budget p q coefs.now lower.now stack.old list.old second.old run.old }
{
    let r = words::read(run);
    let most = calls::COMPONENT_LIMIT;
    let o = walk::resumed_from(p, q, coefs, lower, stack, list, second, r, budget, most);
    tell(o, run)
}

// A map with right sides: the start and the continuing call on a record of words, with an answer that is one number.
// The calls here and in lower.rt are not one function over the call by value: what they share, reading the record and telling what came of it, is c_record's
// `read` and `tell`. The rest is the call itself, and a contract over any call would ask and say more than these three lines do.
ghost use Rattle.std.specs.Prelude.{◌≡◌};
ghost use Rattle.c_walk.specs.Capped.{start_sided, resume_sided};

use c_record::{tell, words};

// The start.
pub fn start(
    p: usize,
    q: usize,
    coefs: &[i32],
    rights: &[i32],
    stack: &mut [u32],
    list: &mut [u32],
    second: &mut [u32],
    run: &mut [u64],
) -> u64
    ensures { (result, (stack.new, (list.new, (second.new, run.new)))) ≡
        start_sided p q coefs.now rights.now stack.old list.old second.old run.old }
{
    if run.len() == 7 {
        let r = words::read(run);
        let o = starts::started_capped(p, q, coefs, rights, stack, list, second, r);
        return tell(o, run);
    }
    resume(p, q, coefs, rights, stack, list, second, run, 0)
}

// The continuing call.
pub fn resume(
    p: usize,
    q: usize,
    coefs: &[i32],
    rights: &[i32],
    stack: &mut [u32],
    list: &mut [u32],
    second: &mut [u32],
    run: &mut [u64],
    budget: u64,
) -> u64
    ensures { (result, (stack.new, (list.new, (second.new, run.new)))) ≡
        resume_sided budget p q coefs.now rights.now stack.old list.old second.old run.old }
{
    let r = words::read(run);
    let most = calls::COMPONENT_LIMIT;
    let o = walk::resumed_capped(p, q, coefs, rights, stack, list, second, r, budget, most);
    tell(o, run)
}

// The plain start and the continuing call on a record of words, with an answer that is one number. The other calls of a walk are in modules.
#![tactic(auto)]

ghost use Rattle.std.specs.Prelude.{◌≡◌};
ghost use Rattle.c_record.specs.Words.{start_words, resume_words};

use c_record::misfit::misfit;
use c_record::{tell, words};

pub mod lower; // lower.rt: a run from a lower bound
pub mod rights; // rights.rt: a map with right sides
pub mod rows; // rows.rt: a row of a list

// The plain start.
pub fn start(
    p: usize,
    q: usize,
    coefs: &[i32],
    stack: &mut [u32],
    list: &mut [u32],
    run: &mut [u64],
) -> u64
    ensures { (result, (stack.new, (list.new, run.new))) ≡
        start_words p q coefs.now stack.old list.old run.old }
{
    if run.len() == 7 {
        let r = words::read(run);
        let o = starts::started(p, q, coefs, stack, list, r);
        return tell(o, run);
    }
    misfit(p, q, coefs, stack, list, run)
}

// The continuing call.
pub fn resume(
    p: usize,
    q: usize,
    coefs: &[i32],
    stack: &mut [u32],
    list: &mut [u32],
    run: &mut [u64],
    budget: u64,
) -> u64
    ensures { (result, (stack.new, (list.new, run.new))) ≡
        resume_words budget p q coefs.now stack.old list.old run.old }
{
    let r = words::read(run);
    let o = walk::resumed(p, q, coefs, stack, list, r, budget, calls::COMPONENT_LIMIT);
    tell(o, run)
}

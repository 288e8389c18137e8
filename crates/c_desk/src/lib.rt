// The calls of the second of two desks on a record of words, with an answer that is one number: specs/Words.antt.
#![tactic(auto)]

ghost use Rattle.std.specs.Prelude.{◌≡◌};
ghost use Rattle.c_desk.specs.Words.{desk_resume_words, desk_start_words};

use c_record::{tell, words};

// The start. It does not look at the list table, and writes nothing into it.
pub fn start(
    p: usize,
    q: usize,
    coefs: &[i32],
    generators: &[u32],
    stack: &mut [u32],
    list: &mut [u32],
    run: &mut [u64],
) -> u64
    ensures { (result, (stack.new, (list.new, run.new))) ≡
        desk_start_words p q coefs.now generators.now stack.old list.old run.old }
{
    if run.len() == 7 {
        let r = words::read(run);
        let o = desk::start(p, q, coefs, generators, stack, list, r);
        return tell(o, run);
    }
    resume(p, q, coefs, generators, stack, list, run, 0)
}

// The continuing call.
pub fn resume(
    p: usize,
    q: usize,
    coefs: &[i32],
    generators: &[u32],
    stack: &mut [u32],
    list: &mut [u32],
    run: &mut [u64],
    budget: u64,
) -> u64
    ensures { (result, (stack.new, (list.new, run.new))) ≡
        desk_resume_words budget p q coefs.now generators.now stack.old list.old run.old }
{
    let r = words::read(run);
    let o = desk::resume(p, q, coefs, generators, stack, list, r, budget);
    tell(o, run)
}

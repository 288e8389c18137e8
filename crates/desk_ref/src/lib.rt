// The calls of the second of two desks as an editor uses them: the caller's own run record is advanced through a reference, over the calls by value.
#![tactic(auto)]

ghost use Rattle.std.specs.Prelude.{◌≡◌};
ghost use Rattle.desk_spec.specs.Desks.{desk_begin, desk_of, desk_resume};
ghost use Rattle.calls.specs.Paper.{left_by, state_of};

use calls::{Answer, Record};

// The start.
pub fn start(
    p: usize,
    q: usize,
    coefs: &[i32],
    generators: &[u32],
    stack: &mut [u32],
    list: &[u32],
    r: &mut Record,
) -> Answer
    ensures { left_by result stack.new list.now r.new ≡
        desk_begin (desk_of p q coefs.now generators.now) (state_of stack.old list.now r.old) }
{
    let o = desk::start(p, q, coefs, generators, stack, list, *r);
    *r = o.run;
    o.answer
}

// The continuing call: at most `budget` steps.
pub fn resume(
    p: usize,
    q: usize,
    coefs: &[i32],
    generators: &[u32],
    stack: &mut [u32],
    list: &mut [u32],
    r: &mut Record,
    budget: u64,
) -> Answer
    ensures { left_by result stack.new list.new r.new ≡
        desk_resume budget (desk_of p q coefs.now generators.now) (state_of stack.old list.old r.old) }
{
    let o = desk::resume(p, q, coefs, generators, stack, list, *r, budget);
    *r = o.run;
    o.answer
}

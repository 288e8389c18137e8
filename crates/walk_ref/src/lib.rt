// The calls as an editor uses them: the caller's own run record is advanced through a reference, over the calls by value.
#![tactic(auto)]

ghost use Rattle.std.specs.Prelude.{◌≡◌, ℕ};
ghost use Rattle.definitions.specs.Calls.{start as start_of, resume as resume_of};
ghost use Rattle.definitions.specs.System.{most_component};
ghost use Rattle.definitions.specs.Input.{alone, input_of, input_with, rights as sides};
ghost use Rattle.calls.specs.Paper.{state_of, state_with, left_by, left_with};

use calls::{Answer, Record};

pub mod lower; // lower.rt: runs from a lower bound

// The plain start; it does not depend on the limit of components.
pub fn start(
    p: usize,
    q: usize,
    coefs: &[i32],
    stack: &mut [u32],
    list: &mut [u32],
    r: &mut Record,
) -> Answer
    ensures { (limit : ℕ)
        → left_by result stack.new list.new r.new ≡ start_of (input_with alone limit p q coefs.now)
        (state_of stack.old list.old r.old) }
{
    let o = starts::started(p, q, coefs, stack, list, *r);
    *r = o.run;
    o.answer
}

// The start of a capped run; it does not depend on the limit of components.
pub fn start_capped(
    p: usize,
    q: usize,
    coefs: &[i32],
    rights: &[i32],
    stack: &mut [u32],
    list: &mut [u32],
    second: &mut [u32],
    r: &mut Record,
) -> Answer
    ensures { (limit : ℕ)
        → left_with result stack.new list.new second.new r.new ≡ start_of
        (input_with (sides rights.now) limit p q coefs.now)
        (state_with stack.old list.old second.old r.old) }
{
    let o = starts::started_capped(p, q, coefs, rights, stack, list, second, *r);
    *r = o.run;
    o.answer
}

// The continuing call, with document 01's limit of components.
pub fn resume(
    p: usize,
    q: usize,
    coefs: &[i32],
    stack: &mut [u32],
    list: &mut [u32],
    r: &mut Record,
    budget: u64,
) -> Answer
    ensures { left_by result stack.new list.new r.new ≡ resume_of budget (input_of p q coefs.now)
        (state_of stack.old list.old r.old) }
{
    let o = walk::resumed(p, q, coefs, stack, list, *r, budget, calls::COMPONENT_LIMIT);
    *r = o.run;
    o.answer
}

// The continuing call of a capped run, with the same limit.
pub fn resume_capped(
    p: usize,
    q: usize,
    coefs: &[i32],
    rights: &[i32],
    stack: &mut [u32],
    list: &mut [u32],
    second: &mut [u32],
    r: &mut Record,
    budget: u64,
) -> Answer
    ensures { left_with result stack.new list.new second.new r.new ≡ resume_of budget
        (input_with (sides rights.now) most_component p q coefs.now)
        (state_with stack.old list.old second.old r.old) }
{
    let most = calls::COMPONENT_LIMIT;
    let o = walk::resumed_capped(p, q, coefs, rights, stack, list, second, *r, budget, most);
    *r = o.run;
    o.answer
}

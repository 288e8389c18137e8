// The calls of a run from a lower bound with the caller's own run record behind a reference, over the calls by value, with document 01's limit of components.
ghost use Rattle.std.specs.Prelude.{◌≡◌};
ghost use Rattle.definitions.specs.Calls.{start_from, resume_from};
ghost use Rattle.definitions.specs.Input.{input_of};
ghost use Rattle.calls.specs.Paper.{state_with, left_with};

use calls::{Answer, Record};

// The start.
pub fn start_from(
    p: usize,
    q: usize,
    coefs: &[i32],
    lower: &[u32],
    stack: &mut [u32],
    list: &mut [u32],
    second: &mut [u32],
    r: &mut Record,
) -> Answer
    ensures { left_with result stack.new list.new second.new r.new ≡ start_from lower.now
        (input_of p q coefs.now) (state_with stack.old list.old second.old r.old) }
{
    let most = calls::COMPONENT_LIMIT;
    let o = starts::started_from(p, q, coefs, lower, stack, list, second, *r, most);
    *r = o.run;
    o.answer
}

// The continuing call: it is handed the lower bound anew.
pub fn resume_from(
    p: usize,
    q: usize,
    coefs: &[i32],
    lower: &[u32],
    stack: &mut [u32],
    list: &mut [u32],
    second: &mut [u32],
    r: &mut Record,
    budget: u64,
) -> Answer
    ensures { left_with result stack.new list.new second.new r.new ≡ resume_from budget
        lower.now (input_of p q coefs.now) (state_with stack.old list.old second.old r.old) }
{
    let most = calls::COMPONENT_LIMIT;
    let o = walk::resumed_from(p, q, coefs, lower, stack, list, second, *r, budget, most);
    *r = o.run;
    o.answer
}

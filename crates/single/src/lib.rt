// The calls of single-file maps (document 02, job 12): the plain start and the continuing call behind refusal 26, by value, and with the caller's run
// record behind a reference.
#![tactic(auto)]

ghost use Rattle.std.specs.Prelude.{◌≡◌};
ghost use Rattle.definitions.specs.Input.{input_of};
ghost use Rattle.calls.specs.Paper.{state_of, outcome_of, left_by, check_of};
ghost use Rattle.single_spec.specs.Calls.{single_start, single_resume, single_start_checks, single_resume_checks};

use calls::{Answer, Outcome, Record, Refusal};

// The plain start.
pub fn started(
    p: usize,
    q: usize,
    coefs: &[i32],
    stack: &mut [u32],
    list: &mut [u32],
    r: Record,
) -> Outcome
    ensures { outcome_of result stack.new list.new ≡
        single_start (input_of p q coefs.now) (state_of stack.old list.old r) }
{
    if let Err(why) = check_start(p, q, coefs, stack, list, r) {
        return calls::refused(why, r);
    }
    starts::started(p, q, coefs, stack, list, r)
}

// The continuing call.
pub fn resumed(
    p: usize,
    q: usize,
    coefs: &[i32],
    stack: &mut [u32],
    list: &mut [u32],
    r: Record,
    budget: u64,
) -> Outcome
    ensures { outcome_of result stack.new list.new ≡
        single_resume budget (input_of p q coefs.now) (state_of stack.old list.old r) }
{
    if let Err(why) = check_resume(p, q, coefs, stack, list, r) {
        return calls::refused(why, r);
    }
    walk::resumed(p, q, coefs, stack, list, r, budget, calls::COMPONENT_LIMIT)
}

// The plain start on the caller's own record.
pub fn start(
    p: usize,
    q: usize,
    coefs: &[i32],
    stack: &mut [u32],
    list: &mut [u32],
    r: &mut Record,
) -> Answer
    ensures { left_by result stack.new list.new r.new ≡
        single_start (input_of p q coefs.now) (state_of stack.old list.old r.old) }
{
    let o = started(p, q, coefs, stack, list, *r);
    *r = o.run;
    o.answer
}

// The continuing call on the caller's own record.
pub fn resume(
    p: usize,
    q: usize,
    coefs: &[i32],
    stack: &mut [u32],
    list: &mut [u32],
    r: &mut Record,
    budget: u64,
) -> Answer
    ensures { left_by result stack.new list.new r.new ≡
        single_resume budget (input_of p q coefs.now) (state_of stack.old list.old r.old) }
{
    let o = resumed(p, q, coefs, stack, list, *r, budget);
    *r = o.run;
    o.answer
}

// What the start looks at.
fn check_start(
    p: usize,
    q: usize,
    coefs: &[i32],
    stack: &[u32],
    list: &[u32],
    r: Record,
) -> Result<(), Refusal>
    ensures { check_of result ≡ single_start_checks (input_of p q coefs.now) (state_of stack.now list.now r) }
{
    checks::check_start(p, q, coefs, stack, list, r)?;
    single_order::columns::check(p, q, coefs)
}

// What the continuing call looks at.
fn check_resume(
    p: usize,
    q: usize,
    coefs: &[i32],
    stack: &[u32],
    list: &[u32],
    r: Record,
) -> Result<(), Refusal>
    ensures { check_of result ≡ single_resume_checks (input_of p q coefs.now) (state_of stack.now list.now r) }
{
    checks::check_resume(p, q, coefs, stack, list, r, calls::COMPONENT_LIMIT)?;
    single_order::columns::check(p, q, coefs)
}

// The training seat (document 02, job 9), a layer above the core: the core's calls with components up to 20, behind 1, 2 and 23, and with 24 for 12. Each
// takes the run record by value and returns what it leaves.
#![tactic(auto)]

ghost use Rattle.std.specs.Prelude.{◌≡◌, List, ℕ, ℤ};
ghost use Rattle.calls.specs.Paper.{check_of, outcome_of, outcome_with, state_of, state_with};
ghost use Rattle.seat_spec.specs.Training.{seat_input, seat_resume, seat_resume_from, seat_start, seat_start_from};
ghost use Rattle.seat_spec.specs.TrainingRules.{renumbered, seat_first};

use calls::{Answer, Outcome, Record, Refusal};

// "at most 6 unknowns and components up to 20"
pub const SEAT_UNKNOWNS: usize = 6;

pub const SEAT_LIMIT: u32 = 20;

// The plain start.
pub fn started(
    p: usize,
    q: usize,
    coefs: &[i32],
    stack: &mut [u32],
    list: &mut [u32],
    r: Record,
) -> Outcome
    ensures { outcome_of result stack.new list.new ≡
        seat_start (seat_input p q coefs.now) (state_of stack.old list.old r) }
{
    if let Err(why) = check(p, q) {
        return calls::refused(why, r);
    }
    starts::started(p, q, coefs, stack, list, r)
}

// The start of a run from a lower bound.
pub fn started_from(
    p: usize,
    q: usize,
    coefs: &[i32],
    lower: &[u32],
    stack: &mut [u32],
    list: &mut [u32],
    second: &mut [u32],
    r: Record,
) -> Outcome
    ensures { outcome_with result stack.new list.new second.new ≡
        seat_start_from lower.now (seat_input p q coefs.now)
        (state_with stack.old list.old second.old r) }
{
    if let Err(why) = check(p, q) {
        return calls::refused(why, r);
    }
    starts::started_from(p, q, coefs, lower, stack, list, second, r, SEAT_LIMIT)
}

// The continuing call of a plain run.
pub fn resumed(
    p: usize,
    q: usize,
    coefs: &[i32],
    stack: &mut [u32],
    list: &mut [u32],
    r: Record,
    budget: u64,
) -> Outcome
    ensures { outcome_of result stack.new list.new ≡
        seat_resume budget (seat_input p q coefs.now) (state_of stack.old list.old r) }
{
    if let Err(why) = check(p, q) {
        return calls::refused(why, r);
    }
    let o = walk::resumed(p, q, coefs, stack, list, r, budget, SEAT_LIMIT);
    seat_outcome(o)
}

// The continuing call of a run from a lower bound: it is handed the lower bound anew.
pub fn resumed_from(
    p: usize,
    q: usize,
    coefs: &[i32],
    lower: &[u32],
    stack: &mut [u32],
    list: &mut [u32],
    second: &mut [u32],
    r: Record,
    budget: u64,
) -> Outcome
    ensures { outcome_with result stack.new list.new second.new ≡
        seat_resume_from budget lower.now (seat_input p q coefs.now)
        (state_with stack.old list.old second.old r) }
{
    if let Err(why) = check(p, q) {
        return calls::refused(why, r);
    }
    let most = SEAT_LIMIT;
    let o = walk::resumed_from(p, q, coefs, lower, stack, list, second, r, budget, most);
    seat_outcome(o)
}

// 1, 2 and 23, which each call of the seat asks ahead of all else.
fn check(p: usize, q: usize) -> Result<(), Refusal>
    ensures { (coefs : List ℤ) → check_of result ≡ seat_first (seat_input p q coefs) }
{
    checks::counts::check_sizes(p, q, 0)?;
    if SEAT_UNKNOWNS < q {
        return Err(Refusal::SeatUnknowns);
    }
    Ok(())
}

// What a continuing call of the core left, as the seat has it: 24 for 12.
fn seat_outcome(o: Outcome) -> Outcome
    ensures { (stack list second : List ℕ) → outcome_with result stack list second ≡ renumbered (outcome_with o stack list second) }
{
    match o.answer {
        Answer::Refused(Refusal::ComponentLimit) => calls::refused(Refusal::SeatComponent, o.run),
        _ => o,
    }
}

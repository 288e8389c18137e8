// The calls over a reference: each lends them a record of its own, as a caller does.
ghost use Rattle.std.specs.Prelude.{◌≡◌, ℕ};
ghost use Rattle.definitions.specs.Calls.{start, start_from, resume, resume_from};
ghost use Rattle.definitions.specs.System.{most_component};
ghost use Rattle.definitions.specs.Input.{alone, input_of, input_with, rights as sides};
ghost use Rattle.calls.specs.Paper.{state_of, state_with, outcome_of, outcome_with};
ghost use Rattle.reader.specs.Reading.{shown_part};

use calls::{Outcome, Record, Solutions};
use reader::Reader;

pub fn started(
    p: usize,
    q: usize,
    coefs: &[i32],
    stack: &mut [u32],
    list: &mut [u32],
    r: Record,
) -> Outcome
    ensures { (limit : ℕ)
        → outcome_of result stack.new list.new ≡
        start (input_with alone limit p q coefs.now) (state_of stack.old list.old r) }
{
    let mut run = r;
    let answer = walk_ref::start(p, q, coefs, stack, list, &mut run);
    Outcome { answer, run }
}

// The start of a capped run; it does not depend on the limit of components.
pub fn started_capped(
    p: usize,
    q: usize,
    coefs: &[i32],
    rights: &[i32],
    stack: &mut [u32],
    list: &mut [u32],
    second: &mut [u32],
    r: Record,
) -> Outcome
    ensures { (limit : ℕ)
        → outcome_with result stack.new list.new second.new ≡
        start (input_with (sides rights.now) limit p q coefs.now)
        (state_with stack.old list.old second.old r) }
{
    let mut run = r;
    let answer = walk_ref::start_capped(p, q, coefs, rights, stack, list, second, &mut run);
    Outcome { answer, run }
}

// The start of a run from a lower bound.
pub fn started_from(
    p: usize,
    q: usize,
    coefs: &[i32],
    lower: &[u32],
    stack: &mut [u32],
    list: &mut [u32],
    second: &mut [u32],
    r: Record,
) -> Outcome
    ensures { outcome_with result stack.new list.new second.new ≡
        start_from lower.now (input_of p q coefs.now) (state_with stack.old list.old second.old r) }
{
    let mut run = r;
    let answer = walk_ref::lower::start_from(p, q, coefs, lower, stack, list, second, &mut run);
    Outcome { answer, run }
}

pub fn resumed(
    p: usize,
    q: usize,
    coefs: &[i32],
    stack: &mut [u32],
    list: &mut [u32],
    r: Record,
    budget: u64,
) -> Outcome
    ensures { outcome_of result stack.new list.new ≡
        resume budget (input_of p q coefs.now) (state_of stack.old list.old r) }
{
    let mut run = r;
    let answer = walk_ref::resume(p, q, coefs, stack, list, &mut run, budget);
    Outcome { answer, run }
}

// The continuing call of a capped run.
pub fn resumed_capped(
    p: usize,
    q: usize,
    coefs: &[i32],
    rights: &[i32],
    stack: &mut [u32],
    list: &mut [u32],
    second: &mut [u32],
    r: Record,
    budget: u64,
) -> Outcome
    ensures { outcome_with result stack.new list.new second.new ≡
        resume budget (input_with (sides rights.now) most_component p q coefs.now)
        (state_with stack.old list.old second.old r) }
{
    let mut run = r;
    let answer = walk_ref::resume_capped(
        p, q, coefs, rights, stack, list, second, &mut run, budget,
    );
    Outcome { answer, run }
}

// The continuing call of a run from a lower bound, which is handed anew.
pub fn resumed_from(
    p: usize,
    q: usize,
    coefs: &[i32],
    lower: &[u32],
    stack: &mut [u32],
    list: &mut [u32],
    second: &mut [u32],
    r: Record,
    budget: u64,
) -> Outcome
    ensures { outcome_with result stack.new list.new second.new ≡
        resume_from budget lower.now (input_of p q coefs.now)
        (state_with stack.old list.old second.old r) }
{
    let mut run = r;
    let answer = walk_ref::lower::resume_from(
        p, q, coefs, lower, stack, list, second, &mut run, budget,
    );
    Outcome { answer, run }
}

// Row n as the reader shows it.
pub fn row(list: &[u32], q: usize, found: Solutions, n: usize) -> &[u32]
    ensures { result.now ≡ shown_part q list.now found.0 n }
{
    let reader = Reader::new(list, q);
    reader.row(found, n)
}

// The refusals that come before the walk (document 01, "Refusals, by who causes them"; 15: document 02).
#![tactic(auto)]

ghost use Rattle.std.specs.Prelude.{◌≡◌, ℕ};
ghost use Rattle.definitions.specs.Refusals.{start_checks, lower_checks, resume_checks, resume_from_checks};
ghost use Rattle.definitions.specs.Input.{alone, input_of, input_with, rights as sides};
ghost use Rattle.calls.specs.Paper.{state_of, state_with, check_of};

use calls::{Record, Refusal};

pub mod coefficients; // coefficients.rt: their range, and that of right sides
pub mod components; // components.rt: those of a lower bound or a tuple above a limit
pub mod counts; // counts.rt: refusals 1 to 3
mod order; // order.rt: a run record and tables in order, and what comes after
mod shape; // shape.rt: counts and lengths

// What a plain start looks at.
pub fn check_start(
    p: usize,
    q: usize,
    coefs: &[i32],
    stack: &[u32],
    list: &[u32],
    r: Record,
) -> Result<(), Refusal>
    ensures { check_of result ≡ start_checks (input_of p q coefs.now) (state_of stack.now list.now r) }
{
    shape::check(p, q, 0, coefs.len(), p, stack.len())?;
    coefficients::check(coefs)
}

// What the start of a capped run looks at; it does not depend on the limit of components.
pub fn check_start_capped(
    p: usize,
    q: usize,
    coefs: &[i32],
    rights: &[i32],
    stack: &[u32],
    list: &[u32],
    second: &[u32],
    r: Record,
) -> Result<(), Refusal>
    ensures { (limit : ℕ)
        → check_of result ≡ start_checks (input_with (sides rights.now) limit p q coefs.now)
        (state_with stack.now list.now second.now r) }
{
    shape::check(p, q, 1, coefs.len(), rights.len(), stack.len())?;
    coefficients::check_both(coefs, rights)
}

// What a start from a lower bound looks at.
pub fn check_start_from(
    p: usize,
    q: usize,
    coefs: &[i32],
    lower: &[u32],
    stack: &[u32],
    list: &[u32],
    second: &[u32],
    r: Record,
    limit: u32,
) -> Result<(), Refusal>
    ensures { check_of result ≡ lower_checks lower.now (input_with alone limit p q coefs.now)
        (state_with stack.now list.now second.now r) }
{
    shape::check(p, q, 0, coefs.len(), p, stack.len())?;
    shape::check_lower(q, coefs, lower, limit)
}

// What a continuing call looks at.
pub fn check_resume(
    p: usize,
    q: usize,
    coefs: &[i32],
    stack: &[u32],
    list: &[u32],
    r: Record,
    limit: u32,
) -> Result<(), Refusal>
    ensures { check_of result ≡ resume_checks (input_with alone limit p q coefs.now) (state_of stack.now list.now r) }
{
    shape::check(p, q, 0, coefs.len(), p, stack.len())?;
    order::check(q, coefs, stack, list, r, limit)
}

// What a continuing call of a capped run looks at.
pub fn check_resume_capped(
    p: usize,
    q: usize,
    coefs: &[i32],
    rights: &[i32],
    stack: &[u32],
    list: &[u32],
    second: &[u32],
    r: Record,
    limit: u32,
) -> Result<(), Refusal>
    ensures { check_of result ≡ resume_checks (input_with (sides rights.now) limit p q coefs.now)
        (state_with stack.now list.now second.now r) }
{
    shape::check(p, q, 1, coefs.len(), rights.len(), stack.len())?;
    order::check_capped(q, coefs, rights, stack, list, second, r, limit)
}

// What a continuing call of a run from a lower bound looks at.
pub fn check_resume_from(
    p: usize,
    q: usize,
    coefs: &[i32],
    lower: &[u32],
    stack: &[u32],
    list: &[u32],
    second: &[u32],
    r: Record,
    limit: u32,
) -> Result<(), Refusal>
    ensures { check_of result ≡ resume_from_checks lower.now (input_with alone limit p q coefs.now)
        (state_with stack.now list.now second.now r) }
{
    shape::check(p, q, 0, coefs.len(), p, stack.len())?;
    order::check_from(q, coefs, lower, stack, list, second, r, limit)
}

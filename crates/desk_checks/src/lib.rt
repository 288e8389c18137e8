// The refusals before the second walk: 1 to 4, then 6, then 7 and, last, 25.
#![tactic(auto)]

ghost use Rattle.std.specs.Prelude.{◌≡◌, length};
ghost use Rattle.desk_spec.specs.Desks.{desk_of, desk_resume_checks, desk_start_checks};
ghost use Rattle.calls.specs.Paper.{check_of, state_of};
ghost use Rattle.desk_checks.specs.Shape.{table_checks};

use calls::{Record, Refusal};

mod order; // order.rt: generators, record and tables in order
mod ranges; // ranges.rt: the coefficients, and the images of the generators
mod shape; // shape.rt: lengths and counts

// What the start looks at.
pub fn check_start(
    p: usize,
    q: usize,
    coefs: &[i32],
    generators: &[u32],
    stack: &[u32],
    list: &[u32],
    r: Record,
) -> Result<(), Refusal>
    ensures { check_of result
        ≡ desk_start_checks (desk_of p q coefs.now generators.now) (state_of stack.now list.now r) }
{
    check_tables(p, q, coefs, generators, stack)?;
    ranges::check(p, q, coefs, generators)
}

// What the continuing call looks at.
pub fn check_resume(
    p: usize,
    q: usize,
    coefs: &[i32],
    generators: &[u32],
    stack: &[u32],
    list: &[u32],
    r: Record,
) -> Result<(), Refusal>
    ensures { check_of result
        ≡ desk_resume_checks (desk_of p q coefs.now generators.now) (state_of stack.now list.now r) }
{
    check_tables(p, q, coefs, generators, stack)?;
    if !order::in_order(q, generators, stack, list, r) {
        return Err(Refusal::OutOfOrder);
    }
    ranges::check(p, q, coefs, generators)
}

// What both calls look at first: counts and lengths, and the generators' components.
fn check_tables(
    p: usize,
    q: usize,
    coefs: &[i32],
    generators: &[u32],
    stack: &[u32],
) -> Result<(), Refusal>
    ensures { check_of result ≡ table_checks p q (length coefs.now) generators.now (length stack.now) }
{
    shape::check(p, q, coefs.len(), generators.len(), stack.len())?;
    if !order::small(generators) {
        return Err(Refusal::OutOfOrder);
    }
    Ok(())
}

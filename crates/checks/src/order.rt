// Refusal 6, and what comes after it.
ghost use Rattle.std.specs.Prelude.{◌≡◌, ℕ, ◌+◌, ◌≤◌, length};
ghost use Rattle.definitions.specs.Answers.{◌then◌};
ghost use Rattle.definitions.specs.Refusals.{check5, check6, check6_from, check7, check8, range_checks};
ghost use Rattle.definitions.specs.Input.{alone, input_with, system_of, rights as sides};
ghost use Rattle.calls.specs.Paper.{state_of, state_with, check_of};
ghost use Rattle.record_order.specs.Order.{InShape};

use crate::{coefficients, shape};
use calls::{Record, Refusal, RunKind};

// Refusals 6 and 7 of a plain run, which do not depend on p.
pub fn check(
    q: usize,
    coefs: &[i32],
    stack: &[u32],
    list: &[u32],
    r: Record,
    limit: u32,
) -> Result<(), Refusal>
    requires { InShape q (length stack.now) }
    ensures { (p : ℕ)
        → check_of result ≡ (check6 (system_of (input_with alone limit p q coefs.now)) (state_of stack.now list.now r)
        then check7 (input_with alone limit p q coefs.now)) }
{
    let most = calls::limit_of(limit);
    if !record_order::in_order(RunKind::Plain, q, q, stack, list, r, most) {
        return Err(Refusal::OutOfOrder);
    }
    coefficients::check(coefs)
}

// Refusals 6, 7 and 15 of a capped run, which do not depend on p.
pub fn check_capped(
    q: usize,
    coefs: &[i32],
    rights: &[i32],
    stack: &[u32],
    list: &[u32],
    second: &[u32],
    r: Record,
    limit: u32,
) -> Result<(), Refusal>
    requires { (1 ≤ q) × InShape (q + 1) (length stack.now) }
    ensures { (p : ℕ)
        → check_of result ≡ (check6 (system_of (input_with (sides rights.now) limit p q coefs.now))
        (state_with stack.now list.now second.now r)
        then range_checks (sides rights.now) (input_with (sides rights.now) limit p q coefs.now)) }
{
    let most = calls::limit_of(limit);
    let wide = q + 1;
    if !record_order::in_order(RunKind::Capped, wide, q, stack, list, r, most) {
        return Err(Refusal::OutOfOrder);
    }
    if !record_order::capped_fits(wide, q, stack, second, r) {
        return Err(Refusal::OutOfOrder);
    }
    coefficients::check_both(coefs, rights)
}

// Refusals 5, 6, 7 and 8 of a run from a lower bound, which do not depend on p.
pub fn check_from(
    q: usize,
    coefs: &[i32],
    lower: &[u32],
    stack: &[u32],
    list: &[u32],
    second: &[u32],
    r: Record,
    limit: u32,
) -> Result<(), Refusal>
    requires { InShape q (length stack.now) }
    ensures { (p : ℕ) → check_of result ≡ (check5 (input_with alone limit p q coefs.now) lower.now
        then check6_from lower.now (input_with alone limit p q coefs.now)
        (state_with stack.now list.now second.now r)
        then check7 (input_with alone limit p q coefs.now)
        then check8 (input_with alone limit p q coefs.now) lower.now) }
{
    if lower.len() != q {
        return Err(Refusal::BoundLength);
    }
    let most = calls::limit_of(limit);
    if !record_order::lower_in_order(q, lower, stack, list, second, r, most) {
        return Err(Refusal::OutOfOrder);
    }
    shape::check_lower(q, coefs, lower, limit)
}

// Counts and lengths: refusals 1 to 4; and what a lower bound adds: 5, and 8 after 7.
ghost use Rattle.std.specs.Prelude.{◌≡◌, ℕ, ◌≤◌};
ghost use Rattle.definitions.specs.Answers.{◌then◌};
ghost use Rattle.definitions.specs.Refusals.{check5, check7, check8};
ghost use Rattle.definitions.specs.Input.{alone, input_with};
ghost use Rattle.calls.specs.Paper.{check_of};
ghost use Rattle.checks.specs.Shape.{shape_checks};

use crate::{coefficients, components, counts};
use calls::Refusal;

// Refusals 1 to 4, from the numbers of coefficients, of right sides and of entries of the stack table, where `extra` unknowns come to those of the map.
pub fn check(
    p: usize,
    q: usize,
    extra: usize,
    coefs: usize,
    sides: usize,
    stack: usize,
) -> Result<(), Refusal>
    requires { extra ≤ 1 }
    ensures { check_of result ≡ shape_checks p q extra coefs sides stack }
{
    counts::check(p, q, extra, coefs)?;
    if sides != p {
        return Err(Refusal::CoefficientCount);
    }
    let wide = q + extra;
    if stack < wide * (wide + 1) {
        return Err(Refusal::TableLength);
    }
    Ok(())
}

// Refusals 5, 7 and 8, which do not depend on p.
pub fn check_lower(q: usize, coefs: &[i32], lower: &[u32], limit: u32) -> Result<(), Refusal>
    ensures { (p : ℕ)
        → check_of result ≡ (check5 (input_with alone limit p q coefs.now) lower.now then check7 (input_with alone limit p q coefs.now)
        then check8 (input_with alone limit p q coefs.now) lower.now) }
{
    if lower.len() != q {
        return Err(Refusal::BoundLength);
    }
    coefficients::check(coefs)?;
    if components::above_limit(lower, calls::limit_of(limit)) {
        return Err(Refusal::BoundRange);
    }
    Ok(())
}

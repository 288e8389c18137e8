// What the start for right sides and lower bounds checks: refusals 1 to 5, then 7, 8, 15 and 35.
ghost use Rattle.std.specs.Prelude.{◌≡◌, ◌*◌, neg_ℤ, ◌+ℤ◌, length};
ghost use Rattle.linear.specs.Systems.{value};
ghost use Rattle.engine_spec.specs.Beside.{SmallEquation, SmallRow, equation_at, row_at};
ghost use Rattle.calls.specs.Paper.{check_of};
ghost use Rattle.engine_checks.specs.Sides.{Ranged, Shaped, range_checks, shape_checks, side_checks, sides_checks_by};

use crate::{room, signs, sizes as limits};
use calls::Refusal;
use checks::coefficients;
use engine_beside::{small, values};

pub fn check(
    p: usize,
    q: usize,
    coefs: &[i32],
    rights: &[i32],
    lower: &[u32],
    equations: usize,
    basis: usize,
    sizes: usize,
) -> Result<(), Refusal>
    ensures { check_of result ≡ sides_checks_by p q coefs.now rights.now lower.now equations basis sizes }
{
    check_shape(
        p,
        q,
        coefs.len(),
        rights.len(),
        lower.len(),
        equations,
        basis,
        sizes,
    )?;
    check_range(p, q, coefs, rights, lower)
}

// 1 to 5, from the numbers handed over.
pub fn check_shape(
    p: usize,
    q: usize,
    coefs: usize,
    rights: usize,
    lower: usize,
    equations: usize,
    basis: usize,
    sizes: usize,
) -> Result<(), Refusal>
    ensures { check_of result ≡ shape_checks p q coefs rights lower equations basis sizes }
{
    limits::check(p, q)?;
    if q == 32 {
        return Err(Refusal::Unknowns);
    }
    if coefs != p * q || rights != p {
        return Err(Refusal::CoefficientCount);
    }
    if equations < p * (q + 1) || room::basis_room(q + 1, basis, sizes) < q + 1 {
        return Err(Refusal::TableLength);
    }
    if lower != q {
        return Err(Refusal::BoundLength);
    }
    Ok(())
}

// The numbers themselves: the coefficients, the bound, the right sides, and what the bound leaves of these.
fn check_range(
    p: usize,
    q: usize,
    coefs: &[i32],
    rights: &[i32],
    lower: &[u32],
) -> Result<(), Refusal>
    requires { Shaped p q (length coefs.now) (length rights.now) (length lower.now) }
    ensures { check_of result ≡ range_checks p q coefs.now rights.now lower.now }
{
    coefficients::check(coefs)?;
    if !small::small_at(lower, 0, q) {
        return Err(Refusal::BoundRange);
    }
    if coefficients::check(rights).is_err() {
        return Err(Refusal::RightSide);
    }
    check_sides(p, q, coefs, rights, lower)
}

// The first right side beyond the working system's limit, less what the bound makes of its equation.
fn check_sides(
    p: usize,
    q: usize,
    coefs: &[i32],
    rights: &[i32],
    lower: &[u32],
) -> Result<(), Refusal>
    requires { Ranged p q coefs.now (length rights.now) (length lower.now) × SmallRow q lower.now 0 }
    ensures { check_of result ≡ side_checks p p q coefs.now rights.now lower.now }
{
    for i in 0..p {
        if !signs::is_small(side_at(coefs, i * q, q, rights[i], lower)) {
            return Err(Refusal::ShiftedSide(i + 1));
        }
    }
    Ok(())
}

// A right side, less what the bound makes of the equation that stands in the coefficients from place `from`.
pub fn side_at(coefs: &[i32], from: usize, q: usize, right: i32, lower: &[u32]) -> i64
    requires { SmallEquation q coefs.now from × SmallRow q lower.now 0 }
    ensures { result ≡ right +ℤ neg_ℤ (value (equation_at coefs.now from) q (row_at lower.now 0)) }
{
    i64::from(right) - values::value_at(coefs, from, lower, 0, q)
}

// The range of the coefficients and of the right sides: refusals 7 and 15.
ghost use Rattle.std.specs.Prelude.{◌≡◌};
ghost use Rattle.definitions.specs.Answers.{◌then◌};
ghost use Rattle.definitions.specs.Refusals.{check15, out_of_range};
ghost use Rattle.calls.specs.Paper.{check_of};
ghost use Rattle.checks.specs.Coefficients.{any_outside, coefficient_checks};

use calls::Refusal;

// The first coefficient that is out of range, by its place from 1. It is looked for only where there is one.
pub fn check(coefs: &[i32]) -> Result<(), Refusal>
    ensures { check_of result ≡ coefficient_checks coefs.now }
{
    if !any_outside(coefs) {
        return Ok(());
    }
    match coefs.iter().position(|x| out_of_range(*x)) {
        Some(i) => Err(Refusal::Coefficient(i + 1)),
        None => Ok(()),
    }
}

// The coefficients, and after them the right sides, whose places are not told.
pub fn check_both(coefs: &[i32], rights: &[i32]) -> Result<(), Refusal>
    ensures { check_of result ≡ (coefficient_checks coefs.now then check15 rights.now) }
{
    check(coefs)?;
    check_sides(rights)
}

// Whether a right side is out of range.
fn check_sides(rights: &[i32]) -> Result<(), Refusal>
    ensures { check_of result ≡ check15 rights.now }
{
    if any_outside(rights) {
        Err(Refusal::RightSide)
    } else {
        Ok(())
    }
}

// Whether one of the entries is out of range. It looks at every one: with no way out of the loop, several are compared at a time.
fn any_outside(entries: &[i32]) -> bool
    ensures { result ≡ any_outside entries.now }
{
    let mut any = false;
    for i in 0..entries.len() {
        any |= out_of_range(entries[i]);
    }
    any
}

pub fn out_of_range(x: i32) -> bool
    ensures { result ≡ out_of_range x }
{
    if x < -10000 {
        return true;
    }
    10000 < x
}

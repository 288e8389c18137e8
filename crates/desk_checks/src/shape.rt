// Counts and lengths: refusals 1 to 4.
ghost use Rattle.std.specs.Prelude.{◌≡◌};
ghost use Rattle.calls.specs.Paper.{check_of};
ghost use Rattle.desk_checks.specs.Shape.{shape_checks};

use calls::Refusal;
use checks::counts;

// From the numbers of coefficients, of numbers of the generators' table and of entries of the stack table.
pub fn check(
    p: usize,
    q: usize,
    coefs: usize,
    generators: usize,
    stack: usize,
) -> Result<(), Refusal>
    ensures { check_of result ≡ shape_checks p q coefs generators stack }
{
    counts::check(p, q, 0, coefs)?;
    if generators % q != 0 {
        return Err(Refusal::CoefficientCount);
    }
    if stack / (q + 2) < generators / q {
        return Err(Refusal::TableLength);
    }
    Ok(())
}

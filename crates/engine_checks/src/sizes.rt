// Refusals 1 and 2: the numbers of equations and of unknowns.
ghost use Rattle.std.specs.Prelude.{◌≡◌};
ghost use Rattle.calls.specs.Paper.{check_of};
ghost use Rattle.engine_checks.specs.Sizes.{size_checks};

use calls::Refusal;

pub fn check(p: usize, q: usize) -> Result<(), Refusal>
    ensures { check_of result ≡ size_checks p q }
{
    if p < 1 || 32 < p {
        return Err(Refusal::Equations);
    }
    if q < 1 || 32 < q {
        return Err(Refusal::Unknowns);
    }
    Ok(())
}

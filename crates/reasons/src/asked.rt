// What is refused of a question: in rising number, 1, 2, 3, 5, 6, 7 and 8.
ghost use Rattle.std.specs.Prelude.{◌≡◌};
ghost use Rattle.definitions.specs.Input.{input_of};
ghost use Rattle.definitions.specs.Reasons.{reason_checks};
ghost use Rattle.definitions.specs.Refusals.{sizes};
ghost use Rattle.calls.specs.Paper.{check_of};
ghost use Rattle.checks.specs.Counts.{Modest};
ghost use Rattle.reasons.specs.Refusals.{range_checks};

use calls::Refusal;

pub fn check(
    equations: usize,
    unknowns: usize,
    p: usize,
    q: usize,
    coefs: &[i32],
    list: &[u32],
    found: usize,
    t: &[u32],
) -> Result<(), Refusal>
    requires { Modest (sizes equations unknowns) }
    ensures { check_of result ≡ reason_checks (sizes equations unknowns) (input_of p q coefs.now) list.now found t.now }
{
    checks::counts::check_within(equations, unknowns, p, q, coefs.len())?;
    if t.len() != q {
        return Err(Refusal::BoundLength);
    }
    if list.len() / q < found {
        return Err(Refusal::OutOfOrder);
    }
    ranges(coefs, t)
}

// Refusals 7 and 8.
fn ranges(coefs: &[i32], t: &[u32]) -> Result<(), Refusal>
    ensures { check_of result ≡ range_checks coefs.now t.now }
{
    checks::coefficients::check(coefs)?;
    if checks::components::above_limit(t, calls::COMPONENT_LIMIT) {
        return Err(Refusal::BoundRange);
    }
    Ok(())
}

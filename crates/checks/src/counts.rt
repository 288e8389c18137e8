// Refusals 1 to 3: the counts of a map.
ghost use Rattle.std.specs.Prelude.{◌≡◌, ◌≤◌};
ghost use Rattle.definitions.specs.Refusals.{sizes};
ghost use Rattle.calls.specs.Paper.{check_of};
ghost use Rattle.checks.specs.Counts.{Modest, count_checks, counts_within, size_checks, sizes_within};

use calls::Refusal;

// From the number of coefficients, where `extra` unknowns come to those of the map.
pub fn check(p: usize, q: usize, extra: usize, coefs: usize) -> Result<(), Refusal>
    requires { extra ≤ 1 }
    ensures { check_of result ≡ count_checks p q extra coefs }
{
    check_within(8, 16 - extra, p, q, coefs)
}

// 1 and 2.
pub fn check_sizes(p: usize, q: usize, extra: usize) -> Result<(), Refusal>
    requires { extra ≤ 1 }
    ensures { check_of result ≡ size_checks p q extra }
{
    sizes_within(8, 16 - extra, p, q)
}

// From the number of coefficients, for maps of at most so many equations and unknowns.
pub fn check_within(
    equations: usize,
    unknowns: usize,
    p: usize,
    q: usize,
    coefs: usize,
) -> Result<(), Refusal>
    requires { Modest (sizes equations unknowns) }
    ensures { check_of result ≡ counts_within (sizes equations unknowns) p q coefs }
{
    sizes_within(equations, unknowns, p, q)?;
    if coefs != p * q {
        return Err(Refusal::CoefficientCount);
    }
    Ok(())
}

// 1 and 2.
fn sizes_within(equations: usize, unknowns: usize, p: usize, q: usize) -> Result<(), Refusal>
    ensures { check_of result ≡ sizes_within (sizes equations unknowns) p q }
{
    if p < 1 {
        return Err(Refusal::Equations);
    }
    if equations < p {
        return Err(Refusal::Equations);
    }
    if q < 1 {
        return Err(Refusal::Unknowns);
    }
    if unknowns < q {
        return Err(Refusal::Unknowns);
    }
    Ok(())
}

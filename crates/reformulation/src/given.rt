// What is refused before the numbers are looked at: 1, 2, 3 and 7.
ghost use Rattle.std.specs.Prelude.{◌&&◌, ◌≡◌, ◌+◌, leb};
ghost use Rattle.definitions.specs.Refusals.{between};
ghost use Rattle.calls.specs.Paper.{check_of};
ghost use Rattle.reformulation_spec.specs.Reformulation as paper;
ghost use Rattle.reformulation.specs.Given.{Sized};
ghost use Rattle.reformulation.specs.Handed.{paper_of};

use super::Handed;
use calls::Refusal;

pub fn check(r: &Handed) -> Result<(), Refusal>
    ensures { check_of result ≡ paper.given_checks (paper_of r.now) }
{
    if !(equations_fit(r.p) && equations_fit(r.m)) {
        return Err(Refusal::Equations);
    }
    if !unknowns_fit(r.q, r.k) {
        return Err(Refusal::Unknowns);
    }
    if !lengths_fit(r) {
        return Err(Refusal::CoefficientCount);
    }
    checks::coefficients::check(r.coefs)
}

fn equations_fit(n: usize) -> bool
    ensures { result ≡ between 1 32 n }
{
    1 <= n && n <= 32
}

// Of q unknowns and k further ones.
pub fn unknowns_fit(q: usize, k: usize) -> bool
    ensures { result ≡ (leb 1 q && leb (q + k) 32) }
{
    1 <= q && q <= 32 && k <= 32 - q
}

fn lengths_fit(r: &Handed) -> bool
    requires { Sized r.now.p r.now.q r.now.k r.now.m }
    ensures { result ≡ paper.are_lengths (paper_of r.now) }
{
    let (unknowns, equations) = (r.q + r.k, r.p + r.k);
    r.coefs.len() == r.p * r.q
        && r.extended.len() == equations * unknowns
        && r.other.len() == r.m * unknowns
        && r.onto.len() == r.m * (1 + equations)
        && r.back.len() == equations * (1 + r.m)
        && r.above.len() == r.k * (1 + r.p)
}

// Whether numbers are within their limits.
ghost use Rattle.std.specs.Prelude.{◌≡◌};
ghost use Rattle.reformulation_spec.specs.Reformulation as paper;
ghost use Rattle.reformulation_spec.specs.Reformulation.{are_multiples, in_range};
ghost use Rattle.reformulation.specs.Handed.{paper_of};

use super::Handed;

// The most that a multiple may be, above zero or below.
const MOST_MULTIPLE: u64 = 1000000000000;

// Coefficients of both maps, and multiples.
pub fn all(r: &Handed) -> bool
    ensures { result ≡ paper.are_small (paper_of r.now) }
{
    in_range(r.extended)
        && in_range(r.other)
        && are_multiples(r.onto)
        && are_multiples(r.back)
        && are_multiples(r.above)
}

fn in_range(table: &[i32]) -> bool
    ensures { result ≡ in_range table.now }
{
    checks::coefficients::check(table).is_ok()
}

fn are_multiples(by: &[i64]) -> bool
    ensures { result ≡ are_multiples by.now }
{
    by.iter().all(|x| x.unsigned_abs() <= MOST_MULTIPLE)
}

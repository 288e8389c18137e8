// A reason as one number with its place, for callers in other languages; by how much an equation is off goes to a number of its own.
ghost use Rattle.std.specs.Prelude.{◌≡◌};
ghost use Rattle.definitions.specs.Input.{input_of};
ghost use Rattle.definitions.specs.Reasons as paper;
ghost use Rattle.definitions.specs.Refusals.{large_sizes, sizes};
ghost use Rattle.checks.specs.Counts.{Modest};
ghost use Rattle.reasons.specs.Numbers.{reason_told};

use crate::{Reason, explain_within};

pub fn reason(
    p: usize,
    q: usize,
    coefs: &[i32],
    list: &[u32],
    found: usize,
    t: &[u32],
    amount: &mut [i64; 1],
) -> u64
    ensures { (result, amount.new) ≡
        reason_told (paper.reason (input_of p q coefs.now) list.now found t.now) amount.old }
{
    reason_within(8, 16, p, q, coefs, list, found, t, amount)
}

// Of a larger map, up to 32 equations and 32 unknowns.
pub fn reason_large(
    p: usize,
    q: usize,
    coefs: &[i32],
    list: &[u32],
    found: usize,
    t: &[u32],
    amount: &mut [i64; 1],
) -> u64
    ensures { (result, amount.new) ≡
        reason_told (paper.reason_within large_sizes (input_of p q coefs.now) list.now found t.now) amount.old }
{
    reason_within(32, 32, p, q, coefs, list, found, t, amount)
}

fn reason_within(
    equations: usize,
    unknowns: usize,
    p: usize,
    q: usize,
    coefs: &[i32],
    list: &[u32],
    found: usize,
    t: &[u32],
    amount: &mut [i64; 1],
) -> u64
    requires { Modest (sizes equations unknowns) }
    ensures { (result, amount.new) ≡
        reason_told (paper.reason_within (sizes equations unknowns) (input_of p q coefs.now) list.now found t.now)
        amount.old }
{
    match explain_within(equations, unknowns, p, q, coefs, list, found, t) {
        Ok(Reason::Zero) => 120,
        Ok(Reason::Off(k, by)) => {
            amount[0] = by;
            calls::codes::coded(121, k)
        }
        Ok(Reason::Stands(n)) => calls::codes::coded(122, n),
        Ok(Reason::Above(n)) => calls::codes::coded(123, n),
        Ok(Reason::Unlisted) => 124,
        Err(why) => calls::codes::refusal(why),
    }
}

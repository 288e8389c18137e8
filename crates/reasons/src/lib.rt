// Why a tuple is not in a list (document 02, Job 8): the first reason that is true.
#![tactic(auto)]

ghost use Rattle.std.specs.Prelude.{◌≡◌, min, ◌+◌, ◌*◌, ◌≤◌, ◌<◌, pos, length, get_or};
ghost use Rattle.linear.specs.Systems.{value};
ghost use Rattle.definitions.specs.Tables.{at};
ghost use Rattle.definitions.specs.Reasons as paper;
ghost use Rattle.definitions.specs.Input.{input_of, map_of};
ghost use Rattle.definitions.specs.Refusals.{large_sizes, sizes};
ghost use Rattle.laws.specs.ReasonLaws.{Askable};
ghost use Rattle.checks.specs.Counts.{Modest};
ghost use Rattle.table_rows.specs.Rows.{tuple};
ghost use Rattle.reasons.specs.Amounts.{SmallEquation, SmallSystem, SmallTuple};
ghost use Rattle.reasons.specs.Answers.{answer_of, reason_of, OffIs};

use calls::{Refusal, Solutions};

mod asked; // asked.rt: what is refused
pub mod told; // told.rt: a reason as numbers

// The reasons, equations and places from 1; specs/Answers.antt has the document's values for each.
#[derive(Clone, Copy)]
pub enum Reason {
    Zero,
    Off(usize, i64),
    Stands(usize),
    Above(usize),
    Unlisted,
}

// The answer to a question: a system, the first `found` rows of a list table, and a tuple.
pub fn explain(
    p: usize,
    q: usize,
    coefs: &[i32],
    list: &[u32],
    found: Solutions,
    t: &[u32],
) -> Result<Reason, Refusal>
    ensures { answer_of result ≡ paper.reason (input_of p q coefs.now) list.now found.0 t.now }
{
    explain_within(8, 16, p, q, coefs, list, found.0, t)
}

// The same of a larger map and its list, as the engine takes them: up to 32 equations and 32 unknowns.
pub fn explain_large(
    p: usize,
    q: usize,
    coefs: &[i32],
    list: &[u32],
    found: Solutions,
    t: &[u32],
) -> Result<Reason, Refusal>
    ensures { answer_of result ≡
        paper.reason_within large_sizes (input_of p q coefs.now) list.now found.0 t.now }
{
    explain_within(32, 32, p, q, coefs, list, found.0, t)
}

// Of maps of at most so many equations and unknowns, where no more than 32 count.
pub fn explain_at_most(
    equations: usize,
    unknowns: usize,
    p: usize,
    q: usize,
    coefs: &[i32],
    list: &[u32],
    found: usize,
    t: &[u32],
) -> Result<Reason, Refusal>
    ensures { answer_of result ≡ paper.reason_within (sizes (min equations 32) (min unknowns 32)) (input_of p q coefs.now) list.now found
        t.now }
{
    explain_within(
        equations.min(32),
        unknowns.min(32),
        p,
        q,
        coefs,
        list,
        found,
        t,
    )
}

// Of maps of at most so many equations and unknowns.
fn explain_within(
    equations: usize,
    unknowns: usize,
    p: usize,
    q: usize,
    coefs: &[i32],
    list: &[u32],
    found: usize,
    t: &[u32],
) -> Result<Reason, Refusal>
    requires { Modest (sizes equations unknowns) }
    ensures { answer_of result ≡
        paper.reason_within (sizes equations unknowns) (input_of p q coefs.now) list.now found t.now }
{
    asked::check(equations, unknowns, p, q, coefs, list, found, t)?;
    Ok(first_true(p, q, coefs, list, found, t))
}

// The first reason that is true, of a question that is not refused.
fn first_true(p: usize, q: usize, coefs: &[i32], list: &[u32], found: usize, t: &[u32]) -> Reason
    requires { Askable large_sizes (input_of p q coefs.now) list.now found t.now }
    ensures { reason_of result ≡ paper.first_true (map_of (input_of p q coefs.now)) found (at list.now q) (tuple t.now) }
{
    if vanishes(q, t) {
        return Reason::Zero;
    }
    match first_off(p, q, coefs, t) {
        Some((k, amount)) => Reason::Off(k, amount),
        None => in_list(list, found, q, t),
    }
}

// Where a tuple that solves the system stands in the list, or which row lies below it.
fn in_list(list: &[u32], found: usize, q: usize, t: &[u32]) -> Reason
    requires { (0 < q) × (q ≤ length t.now) × (found * q ≤ length list.now) }
    ensures { reason_of result ≡ paper.in_list q found (at list.now q) (tuple t.now) }
{
    match table_rows::same::standing(list, found, q, t) {
        Some(n) => Reason::Stands(n),
        None => match table_rows::lists::highest(list, found, q, t) {
            Some(n) => Reason::Above(n),
            None => Reason::Unlisted,
        },
    }
}

// Whether the tuple is all zero; components past the slice count as 0.
pub fn vanishes(q: usize, t: &[u32]) -> bool
    ensures { result ≡ paper.vanishes q (tuple t.now) }
{
    t.iter().take(q).all(|x| *x == 0)
}

// The first equation that is off, from 1, and its amount.
fn first_off(p: usize, q: usize, coefs: &[i32], t: &[u32]) -> Option<(usize, i64)>
    requires { SmallSystem p q coefs.now × SmallTuple q t.now }
    ensures { OffIs (map_of (input_of p q coefs.now)) (tuple t.now) result }
{
    for i in 0..p {
        let amount = left_side(q, coefs, i, t);
        if amount != 0 {
            return Some((i + 1, amount));
        }
    }
    None
}

// The left side of equation i, from 0, at the tuple.
fn left_side(q: usize, coefs: &[i32], i: usize, t: &[u32]) -> i64
    requires { SmallEquation q coefs.now i × SmallTuple q t.now }
    ensures { result ≡ value (λ j. get_or coefs.now (i * q + j) (pos 0)) q (tuple t.now) }
{
    let mut sum: i64 = 0;
    for j in 0..q {
        sum = products::sum_and(
            sum,
            products::wide(coefs[i * q + j]),
            products::natural(t[j]),
        );
    }
    sum
}

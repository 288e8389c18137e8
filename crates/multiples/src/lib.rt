// What a solution is made of (document 02, Job 13): the multiples of the rows of a list.
#![tactic(auto)]

ghost use Rattle.std.specs.Prelude.{◌≡◌, ◌*◌, ◌≤◌, ◌<◌, leb, length, Ok};
ghost use Rattle.definitions.specs.Input.{input_of};
ghost use Rattle.definitions.specs.Reasons.{reason_within};
ghost use Rattle.definitions.specs.Refusals.{large_sizes, sizes};
ghost use Rattle.definitions.specs.Tables.{at};
ghost use Rattle.checks.specs.Counts.{Modest};
ghost use Rattle.table_rows.specs.Rows.{tuple};
ghost use Rattle.multiples_spec.specs.Parts as paper;
ghost use Rattle.multiples.specs.Answers.{ExcuseIs, outcome_of, parts_told};

use calls::{Refusal, Solutions};
use reasons::Reason;

mod rows; // rows.rt: rows taken off a tuple

// What is answered, equations from 1; specs/Answers.antt has the document's values for each.
#[derive(Clone, Copy)]
pub enum Parts {
    Made,
    Off(usize, i64),
    Unlisted,
    NoSpace,
}

// Takes a tuple apart into the first `found` rows of a list table: where it is made of them, `times` tells how often each is taken.
pub fn decompose(
    p: usize,
    q: usize,
    coefs: &[i32],
    list: &[u32],
    found: Solutions,
    t: &[u32],
    times: &mut [u32],
) -> Result<Parts, Refusal>
    ensures { outcome_of result times.new ≡
        paper.decomposed (input_of p q coefs.now) list.now found.0 t.now times.old }
{
    decompose_within(8, 16, p, q, coefs, list, found.0, t, times)
}

// The same of a larger map and its list, as the engine takes them: up to 32 equations and 32 unknowns.
pub fn decompose_large(
    p: usize,
    q: usize,
    coefs: &[i32],
    list: &[u32],
    found: Solutions,
    t: &[u32],
    times: &mut [u32],
) -> Result<Parts, Refusal>
    ensures { outcome_of result times.new ≡
        paper.decomposed_within large_sizes (input_of p q coefs.now) list.now found.0 t.now times.old }
{
    decompose_within(32, 32, p, q, coefs, list, found.0, t, times)
}

// Of maps of at most so many equations and unknowns.
fn decompose_within(
    equations: usize,
    unknowns: usize,
    p: usize,
    q: usize,
    coefs: &[i32],
    list: &[u32],
    found: usize,
    t: &[u32],
    times: &mut [u32],
) -> Result<Parts, Refusal>
    requires { Modest (sizes equations unknowns) }
    ensures { outcome_of result times.new ≡
        paper.decomposed_within (sizes equations unknowns) (input_of p q coefs.now) list.now found t.now
        times.old }
{
    match why_not(equations, unknowns, p, q, coefs, list, found, t)? {
        Some((k, amount)) => Ok(Parts::Off(k, amount)),
        None => Ok(apart(list, found, q, t, times)),
    }
}

// The same as one number, for callers in other languages: that of a refusal or of Job 8's reasons, 29 for no space; by how much an equation is off goes to
// `amount`.
pub fn decompose_number(
    p: usize,
    q: usize,
    coefs: &[i32],
    list: &[u32],
    found: usize,
    t: &[u32],
    times: &mut [u32],
    amount: &mut [i64; 1],
) -> u64
    ensures { (result, (times.new, amount.new)) ≡
        parts_told (paper.decomposed (input_of p q coefs.now) list.now found t.now times.old)
        amount.old }
{
    number_within(8, 16, p, q, coefs, list, found, t, times, amount)
}

// Of a larger map, up to 32 equations and 32 unknowns.
pub fn decompose_large_number(
    p: usize,
    q: usize,
    coefs: &[i32],
    list: &[u32],
    found: usize,
    t: &[u32],
    times: &mut [u32],
    amount: &mut [i64; 1],
) -> u64
    ensures { (result, (times.new, amount.new)) ≡
        parts_told (paper.decomposed_within large_sizes (input_of p q coefs.now) list.now found t.now times.old)
        amount.old }
{
    number_within(32, 32, p, q, coefs, list, found, t, times, amount)
}

fn number_within(
    equations: usize,
    unknowns: usize,
    p: usize,
    q: usize,
    coefs: &[i32],
    list: &[u32],
    found: usize,
    t: &[u32],
    times: &mut [u32],
    amount: &mut [i64; 1],
) -> u64
    requires { Modest (sizes equations unknowns) }
    ensures { (result, (times.new, amount.new)) ≡
        parts_told
        (paper.decomposed_within (sizes equations unknowns) (input_of p q coefs.now) list.now found t.now
        times.old)
        amount.old }
{
    match decompose_within(equations, unknowns, p, q, coefs, list, found, t, times) {
        Ok(Parts::Made) => 125,
        Ok(Parts::Off(k, by)) => {
            amount[0] = by;
            calls::codes::coded(121, k)
        }
        Ok(Parts::Unlisted) => 124,
        Ok(Parts::NoSpace) => 29,
        Err(why) => calls::codes::refusal(why),
    }
}

// The equation that is off, from 1, and its amount, where one is: then the tuple is not taken apart.
fn why_not(
    equations: usize,
    unknowns: usize,
    p: usize,
    q: usize,
    coefs: &[i32],
    list: &[u32],
    found: usize,
    t: &[u32],
) -> Result<Option<(usize, i64)>, Refusal>
    requires { Modest (sizes equations unknowns) }
    ensures { ExcuseIs (reason_within (sizes equations unknowns) (input_of p q coefs.now) list.now found t.now) result }
{
    match reasons::explain_at_most(equations, unknowns, p, q, coefs, list, found, t)? {
        Reason::Off(k, amount) => Ok(Some((k, amount))),
        Reason::Zero | Reason::Stands(_) | Reason::Above(_) | Reason::Unlisted => Ok(None),
    }
}

// A solution, if there is a place for a multiple of each row.
fn apart(list: &[u32], found: usize, q: usize, t: &[u32], times: &mut [u32]) -> Parts
    requires { (q ≤ 32) × (q ≤ length t.now) × (found * q ≤ length list.now) }
    ensures { outcome_of (Ok result) times.new ≡
        paper.if_space (leb found (length times.old)) times.old
        (paper.taken_apart q found (at list.now q) (tuple t.now) times.old) }
{
    if times.len() < found {
        return Parts::NoSpace;
    }
    let mut rest = [0u32; 32];
    table_rows::rows::write(&mut rest, 0, q, t);
    rows::take(list, found, q, &mut rest, times);
    if reasons::vanishes(q, &rest) {
        return Parts::Made;
    }
    Parts::Unlisted
}

// Questions about a list (document 02): which row lies at or below a tuple.
ghost use Rattle.std.specs.Prelude.{◌≡◌};
ghost use Rattle.definitions.specs.Highest as paper;
ghost use Rattle.definitions.specs.Refusals.{large_sizes};
ghost use Rattle.reader.specs.Answers.{located_of, located_number};

use calls::{Refusal, Solutions};

// The highest place, from 1, of one of the first `found` rows of a list table that is at or below `t`.
pub fn locate(list: &[u32], q: usize, found: Solutions, t: &[u32]) -> Result<Option<usize>, Refusal>
    ensures { located_of result ≡ paper.locate q list.now found.0 t.now }
{
    locate_within(16, list, q, found, t)
}

// The same of a list of a larger map, as the engine lists them: up to 32 unknowns.
pub fn locate_large(
    list: &[u32],
    q: usize,
    found: Solutions,
    t: &[u32],
) -> Result<Option<usize>, Refusal>
    ensures { located_of result ≡ paper.locate_within large_sizes.unknowns q list.now found.0 t.now }
{
    locate_within(32, list, q, found, t)
}

// For rows of at most so many numbers.
fn locate_within(
    unknowns: usize,
    list: &[u32],
    q: usize,
    found: Solutions,
    t: &[u32],
) -> Result<Option<usize>, Refusal>
    ensures { located_of result ≡ paper.locate_within unknowns q list.now found.0 t.now }
{
    if !(1..=unknowns).contains(&q) {
        return Err(Refusal::Unknowns);
    }
    if t.len() != q {
        return Err(Refusal::BoundLength);
    }
    if list.len() / q < found.0 {
        return Err(Refusal::OutOfOrder);
    }
    Ok(table_rows::lists::highest(list, found.0, q, t))
}

// The same as one number, for callers in other languages: 126 with the place, 127 for no such row, and a refusal's own number.
pub fn locate_number(list: &[u32], q: usize, found: usize, t: &[u32]) -> u64
    ensures { result ≡ located_number (paper.locate q list.now found t.now) }
{
    number(locate(list, q, Solutions(found), t))
}

pub fn locate_large_number(list: &[u32], q: usize, found: usize, t: &[u32]) -> u64
    ensures { result ≡ located_number (paper.locate_within large_sizes.unknowns q list.now found t.now) }
{
    number(locate_large(list, q, Solutions(found), t))
}

// What was located, as one number.
fn number(l: Result<Option<usize>, Refusal>) -> u64
    ensures { result ≡ located_number (located_of l) }
{
    match l {
        Ok(Some(n)) => calls::codes::coded(126, n),
        Ok(None) => 127,
        Err(why) => calls::codes::refusal(why),
    }
}

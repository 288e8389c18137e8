// The reader of a finished list: rows as parts of the list table, by their number from 1; and which row lies at or below a tuple.
#![tactic(auto)]

ghost use Rattle.std.specs.Prelude.{◌≡◌};
ghost use Rattle.definitions.specs.Reader.{reader_check, row_of_either};
ghost use Rattle.definitions.specs.Refusals.{between};
ghost use Rattle.definitions.specs.System.{most_unknowns};
ghost use Rattle.calls.specs.Paper.{check_of};
ghost use Rattle.reader.specs.Reading.{shown_part, capped_part, shows, which_of};

use calls::{Refusal, Solutions};

pub mod lookups; // lookups.rt: which row lies at or below a tuple (document 02, Job 7)

// A reader of a finished list borrows the list table, whose rows are of q numbers.
#[derive(Drop)]
pub struct Reader<'a> {
    pub list: &'a [u32],
    pub q: usize,
}

// Whether a system may have q unknowns.
fn in_range(q: usize) -> bool
    ensures { result ≡ between 1 most_unknowns q }
{
    (1..=16).contains(&q)
}

// Whether a reader for rows of q numbers is refused.
pub fn reader_answer(q: usize) -> Result<(), Refusal>
    ensures { check_of result ≡ reader_check q }
{
    if in_range(q) {
        Ok(())
    } else {
        Err(Refusal::Unknowns)
    }
}

// Whether there is a row n to show, of a reader that is not refused.
#[tactic(auto, unfolding(crate::specs::Reading::shows, definitions::specs::Reader::has_row))]
fn shows_row(list: &[u32], q: usize, found: Solutions, n: usize) -> bool
    ensures { result ≡ shows q list.now found.0 n }
{
    if !in_range(q) {
        return false;
    }
    if n < 1 {
        return false;
    }
    if found.0 < n {
        return false;
    }
    n <= list.len() / q
}

// Row n of the list table, as a part of it; an empty part where there is none.
pub fn row_of(list: &[u32], q: usize, found: Solutions, n: usize) -> &[u32]
    ensures { result.now ≡ shown_part q list.now found.0 n }
{
    if shows_row(list, q, found, n) {
        let a = (n - 1) * q;
        let e = a + q;
        return &list[a..e];
    }
    &list[0..0]
}

// Which of the two lists of a capped run a row is asked from: the one at 0, or the one at 1.
#[derive(Clone, Copy)]
pub enum Which {
    Zero,
    One,
}

// Row n of the list at 0 or of the list at 1, as a part of it; an empty part where there is none, or q is no number of unknowns of a capped run.
// `found` counts the rows of that list.
pub fn row_of_either<'a>(
    list: &'a [u32],
    second: &'a [u32],
    which: Which,
    q: usize,
    found: Solutions,
    n: usize,
) -> &'a [u32]
    ensures { result.now ≡ row_of_either (which_of which) q list.now second.now found.0 n }
{
    match which {
        Which::Zero => capped_row(list, q, found, n),
        Which::One => capped_row(second, q, found, n),
    }
}

// Row n of one list of a capped run.
fn capped_row(list: &[u32], q: usize, found: Solutions, n: usize) -> &[u32]
    ensures { result.now ≡ capped_part q list.now found.0 n }
{
    if 15 < q {
        return &list[0..0];
    }
    row_of(list, q, found, n)
}

impl<'a> Reader<'a> {
    pub fn new(list: &'a [u32], q: usize) -> Reader<'a>
        ensures { (result.list ≡ list.entry) × (result.q ≡ q) }
    {
        Reader { list, q }
    }

    pub fn answer(self) -> Result<(), Refusal>
        ensures { check_of result ≡ reader_check self.entry.q }
    {
        reader_answer(self.q)
    }

    pub fn row(self, found: Solutions, n: usize) -> &'a [u32]
        ensures { result.now ≡ shown_part self.entry.q self.entry.list.now found.0 n }
    {
        row_of(self.list, self.q, found, n)
    }
}

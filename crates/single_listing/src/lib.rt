// The listing of a single-file map (document 02, job 12): a line for each minimal solution of a list, its unknowns rising and then in their order. All
// is checked before anything is written.
#![tactic(auto)]

ghost use Rattle.std.specs.Prelude.{◌≡◌, length};
ghost use Rattle.definitions.specs.Input.{input_of};
ghost use Rattle.calls.specs.Paper.{value};
ghost use Rattle.single_order.specs.Rows.{map_of};
ghost use Rattle.single_spec.specs.Listing.{listing, listing_call, row_checks};
ghost use Rattle.texts.specs.Put.{Put};
ghost use Rattle.single_listing.specs.Listed.{listed_of, check_of, number_of, values_of};
ghost use Rattle.single_listing.specs.declared.ListingRefusal.TheVariants.{Call};
ghost use Rattle.single_listing.specs.Passes.{Whole, Listable, checks_in};

use calls::{Refusal, Solutions};

mod lines; // lines.rt: the line of a minimal solution
mod map; // map.rt: what the listing looks at before the rows

// Why the listing is refused; specs/Listed.antt has the documents' number for each.
#[derive(Clone, Copy)]
pub enum ListingRefusal {
    Call(Refusal),
    NotMinimal(usize),
    OutputLength,
}

impl From<Refusal> for ListingRefusal {
    ghost from_gives = { λ why r. r ≡ Call why };

    fn from(why: Refusal) -> ListingRefusal {
        ListingRefusal::Call(why)
    }
}

// Writes the listing of the first `found` rows of the list to the beginning of `out`.
pub fn listed(
    p: usize,
    q: usize,
    coefs: &[i32],
    list: &[u32],
    found: Solutions,
    out: &mut [u8],
) -> Result<usize, ListingRefusal>
    ensures { listed_of result out.new ≡ listing_call (input_of p q coefs.now) list.now found.0 out.old }
{
    check(p, q, coefs, list, found.0, out.len())?;
    Ok(write(p, q, coefs, list, found.0, out))
}

// The first pass: all that the listing looks at, into an output space of length `room`.
fn check(
    p: usize,
    q: usize,
    coefs: &[i32],
    list: &[u32],
    found: usize,
    room: usize,
) -> Result<(), ListingRefusal>
    ensures { check_of result ≡ checks_in (input_of p q coefs.now) list.now found room }
{
    map::check(p, q, coefs, list.len(), found)?;
    check_rows(p, q, coefs, list, found, room)
}

// Refusals 30 and 29: the rows, and the length of their lines.
fn check_rows(
    p: usize,
    q: usize,
    coefs: &[i32],
    list: &[u32],
    found: usize,
    room: usize,
) -> Result<(), ListingRefusal>
    requires { Whole (map_of p q coefs.now) list.now found }
    ensures { check_of result ≡ row_checks (map_of p q coefs.now) list.now found room }
{
    // what is left of the room, while there is enough
    let mut left = Some(room);
    for i in 0..found {
        let Some(length) = lines::measure(p, q, coefs, list, i * q) else {
            return Err(ListingRefusal::NotMinimal(i + 1));
        };
        left = left.and_then(|room| room.checked_sub(length));
    }
    match left {
        Some(_) => Ok(()),
        None => Err(ListingRefusal::OutputLength),
    }
}

// The second pass: the lines of the first `found` rows.
fn write(p: usize, q: usize, coefs: &[i32], list: &[u32], found: usize, out: &mut [u8]) -> usize
    requires { Listable (map_of p q coefs.now) list.now found (length out.old) }
    ensures { Put out.old 0 (listing (map_of p q coefs.now) list.now found) out.new result }
{
    let mut at = 0;
    for i in 0..found {
        at = lines::write(p, q, coefs, list, i * q, out, at);
    }
    at
}

// The documents' number of a refusal of the listing.
pub fn number_of(why: ListingRefusal) -> u64
    ensures { result ≡ number_of why }
{
    match why {
        ListingRefusal::Call(other) => calls::number_of(other),
        ListingRefusal::NotMinimal(_) => 30,
        ListingRefusal::OutputLength => 29,
    }
}

// The value that it comes with: the row for 30.
pub fn value_of(why: ListingRefusal) -> usize
    ensures { result ≡ value (values_of why) }
{
    match why {
        ListingRefusal::Call(other) => calls::value_of(other),
        ListingRefusal::NotMinimal(row) => row,
        ListingRefusal::OutputLength => 0,
    }
}

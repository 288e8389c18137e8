// A row of a finished list, or of either of two, for a caller that cannot hold a part of a table.
ghost use Rattle.std.specs.Prelude.{◌≡◌, ◌++◌, ◌≤◌, length, drop};
ghost use Rattle.definitions.specs.Refusals.{between};
ghost use Rattle.reader.specs.Reading.{which_of};
ghost use Rattle.c_walk.specs.Rows.{row_told, copy_told, either_told, which_at, count_at};

use calls::Solutions;
use reader::Which;

// Whether the reader is refused, and then what it shows.
pub fn tell(list: &[u32], q: usize, found: usize, n: usize, out: &mut [u32]) -> u64
    ensures { (result, out.new) ≡ row_told q list.now found n out.old }
{
    match reader::reader_answer(q) {
        Err(why) => calls::number_of(why),
        Ok(()) => tell_part(reader::row_of(list, q, Solutions(found), n), out),
    }
}

// The same of the list at 0 or at 1 of a run with right sides; there is no other list.
pub fn tell_either<'a>(
    list: &'a [u32],
    second: &'a [u32],
    at: usize,
    q: usize,
    found: usize,
    n: usize,
    out: &mut [u32],
) -> u64
    ensures { (result, out.new) ≡ either_told at q list.now second.now found n out.old }
{
    if has_two_lists(q) {
        let count = Solutions(count_at(at, found));
        return tell_part(
            reader::row_of_either(list, second, which_at(at), q, count, n),
            out,
        );
    }
    2
}

// Whether a system with q unknowns may have right sides.
fn has_two_lists(q: usize) -> bool
    ensures { result ≡ between 1 15 q }
{
    (1..=15).contains(&q)
}

fn which_at(at: usize) -> Which
    ensures { which_of result ≡ which_at at }
{
    match at {
        0 => Which::Zero,
        _ => Which::One,
    }
}

fn count_at(at: usize, found: usize) -> usize
    ensures { result ≡ count_at at found }
{
    if at < 2 { found } else { 0 }
}

// A part of the list: no row where it is empty.
fn tell_part(part: &[u32], out: &mut [u32]) -> u64
    ensures { (result, out.new) ≡ copy_told part.now out.old }
{
    if part.len() == 0 {
        return 103;
    }
    if out.len() < part.len() {
        return 29;
    }
    copy(part, out);
    102
}

fn copy(part: &[u32], out: &mut [u32])
    requires { length part.now ≤ length out.old }
    ensures { out.new ≡ part.now ++ drop (length part.now) out.old }
{
    out[..part.len()].copy_from_slice(part);
}

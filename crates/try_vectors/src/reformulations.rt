// The calls of a line: a map in the place of another (kind s) and rows without their further unknowns (kind p). Of the first the operands are p, q, k, m and
// how many of the words h are those `back`; c, e and b are the three maps, r the multiples onto, h those back and then those above, each number as the 64 bits
// that it has. Of the second they are q, k and the count of rows; l are the rows, n the table for them before and after.
use std::array;
use try_support::line::{Line, RECORD};
use try_support::tables::{at, first};

// The kinds of call, by the letters of their lines.
pub const KINDS: [(&str, u8); 2] = [("shown", b's'), ("projected", b'p')];

// Whether the answer is that of the line. One whose tables have no room is not asked; the words h are read as far as they have room.
pub fn agrees(kind: u8, l: &Line) -> bool {
    if kind == b'p' {
        return l.list.fits() && l.second.fits() && projects(l);
    }
    let maps = l.coefs.fits() && l.equations.fits() && l.rights.fits();
    maps && l.record.fits() && shows(l)
}

fn shows(l: &Line) -> bool {
    let split = l.operands[4] as usize;
    let onto = integers(&l.record.before);
    let others = integers(&l.shares.before);
    let back = first(&others, split);
    // where `split` is more than there are words h, their number less it wraps: all from `split` on are above, and zeros where the table ends
    let rest: [i64; RECORD] = array::from_fn(|i| at(&others, split.wrapping_add(i)));
    let above = first(&rest, l.shares.len().wrapping_sub(split));
    reformulation::reformulates(
        l.operands[0] as usize,
        l.operands[1] as usize,
        l.operands[2] as usize,
        l.operands[3] as usize,
        l.coefs.entries(),
        l.equations.entries(),
        l.rights.entries(),
        first(&onto, l.record.len()),
        back,
        above,
    ) == l.answered[0]
}

// The numbers that words of 64 bits are.
fn integers(words: &[u64; RECORD]) -> [i64; RECORD] {
    words.map(|word| word.cast_signed())
}

fn projects(l: &Line) -> bool {
    let mut out = l.second;
    let answer = reformulation::project(
        l.operands[0] as usize,
        l.operands[1] as usize,
        l.operands[2] as usize,
        l.list.entries(),
        out.lend(),
    );
    answer == l.answered[0] && out.agrees()
}

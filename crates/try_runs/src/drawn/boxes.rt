// The minimal solutions of a box, found by trying its tuples one by one.
use crate::drawn::systems::System;
use try_support::tables;

// How many numbers a component of the box may be: 0 to 6.
const SIDE: u32 = 7;

// Writes the minimal solutions of the box, and returns how many there are. A tuple comes after all tuples below it, so it is minimal where no
// solution that was written is at or below it.
pub fn minimal(s: System, rows: &mut [u32]) -> usize {
    let mut n: usize = 0;
    for code in 0..size(s.q) {
        let t = [
            digit(code),
            digit(code / 7),
            digit(code / 49),
            digit(code / 343),
        ];
        let tuple = tables::first(&t, s.q);
        if s.allows(tuple) && !tables::any_at_or_below(rows, n, s.q, tuple) {
            tables::copy(tuple, rows, tables::place(n, s.q, 0));
            n = n.wrapping_add(1);
        }
    }
    n
}

fn digit(code: u64) -> u32 {
    (code % 7) as u32
}

// How many tuples of q components the box has.
fn size(q: usize) -> u64 {
    match q {
        1 => 7,
        2 => 49,
        3 => 343,
        _ => 2401,
    }
}

// Whether a tuple lies in the box.
pub fn holds(tuple: &[u32]) -> bool {
    tuple.iter().all(|x| *x < SIDE)
}

// What the test programs share. Nothing here walks: tables are read and written entry by entry.
#![tactic(auto)]

pub mod input; // input.rt: what a program reads
pub mod line; // line.rt: the words of a line of vectors
pub mod print; // print.rt: what a program prints
pub mod tables; // tables.rt: tables of numbers
pub mod tally; // tally.rt: what was counted

// One more where what was checked is so.
pub fn up(n: u64, so: bool) -> u64 {
    n.wrapping_add(u64::from(so))
}

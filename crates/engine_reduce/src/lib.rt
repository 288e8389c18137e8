// Whether some row reduces the sum of two rows: the answer of the stage's test, found sooner. What dropped sums lately is remembered and tried first, and
// nothing of it is trusted; only a look at all rows says no.
#![tactic(auto)]

pub mod memory; // memory.rt: what is remembered of rows that dropped sums
pub mod sums; // sums.rt: the test of a sum

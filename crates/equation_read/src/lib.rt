// Equations as people write them: reading.
#![tactic(auto)]

mod bytes; // bytes.rt: spaces, signs and numbers at a place
mod totals; // totals.rt: numbers collected
mod sums; // sums.rt: sums, terms and brackets
mod scan; // scan.rt: where a text is at fault
pub mod equation; // equation.rt: a whole equation

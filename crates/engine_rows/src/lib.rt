// Rows in the tables of the engine.
#![tactic(auto)]

pub mod marks; // marks.rt: numbers that answer for many pairs at once
pub mod packing; // packing.rt: rows kept, one behind the other
pub mod rows; // rows.rt: rows of a table, and the sums of two

// Rows of the second walk's stack table: their marks, what is written, and their images under the second group.
#![tactic(auto)]

pub mod images; // images.rt: images under the second group
pub mod marks; // marks.rt: marks in two numbers
pub mod rows; // rows.rt: rows

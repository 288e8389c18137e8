// Rows of numbers in a lent table, of any width and under any limit of coefficients whose values fit 64 bits.
#![tactic(auto)]

pub mod lists; // lists.rt: the check on a list
pub mod rows; // rows.rt: rows compared, copied, and within a limit
pub mod same; // same.rt: the row that is a tuple
pub mod sweep; // sweep.rt: the minimal ones of the rows kept, one behind the other
pub mod values; // values.rt: the value of a row under one equation

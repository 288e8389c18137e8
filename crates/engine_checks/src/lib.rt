// The refusals before a call's work, and the rows that find room in what is lent.
#![tactic(auto)]

pub mod operations; // operations.rt: whether a row operation may be made
mod order; // order.rt: whether the record and the tables are in order
pub mod room; // room.rt: the rows that find room
pub mod standing; // standing.rt: what each call checks
mod sizes; // sizes.rt: refusals 1 and 2
pub mod sides; // sides.rt: what the start for right sides and lower bounds checks
mod signs; // signs.rt: tests of one number
pub mod taking; // taking.rt: whether an equation is left, and an unknown fresh

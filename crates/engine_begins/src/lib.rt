// The start, a row operation and the begin of a stage, after their checks.
#![tactic(auto)]

pub mod begins; // begins.rt: what each leaves
mod extended; // extended.rt: the working system with an extra unknown
mod writing; // writing.rt: numbers written into the working system

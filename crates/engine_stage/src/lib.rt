// One stage of the engine in code: its turns, and the loop over them.
#![tactic(auto)]

pub mod append; // append.rt: rows appended, with what stands beside them
pub mod stages; // stages.rt: the loop over turns
pub mod tests; // tests.rt: the test of a pair
pub mod turns; // turns.rt: one turn

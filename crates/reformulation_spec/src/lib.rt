#![tactic(auto)]

// A map in the place of another, with the same minimal solutions, and numbers that show it: see proofs/Promises.antt. No code.

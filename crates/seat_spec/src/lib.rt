#![tactic(auto)]

// The training seat: see specs/Training.antt. No code.

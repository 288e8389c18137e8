#![tactic(auto)]

// Single-file maps: see specs/. No code.
// What holds of single-file maps: see specs/. No code.

#![tactic(auto)]

// The text form of a map: see specs/. No code.

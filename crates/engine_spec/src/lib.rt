#![tactic(auto)]

// The engine: one equation after the other by sums of pairs, in the order of their degree. Open specs/Stage.antt first, then specs/Engine.antt. No code.

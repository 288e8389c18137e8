#![tactic(auto)]

// What a solution is made of (document 02, Job 13), as definitions and laws: see specs/Parts.antt. No code.
// Every solution is made of the minimal ones (document 02, Job 13): see proofs/Plans.antt. No code.

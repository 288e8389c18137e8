#![tactic(auto)]

// Equations as people write them: see specs/. No code.
// The laws of equations in text: see specs/. No code.
// A system typed as several lines: definitions, their laws and rules. See specs/.

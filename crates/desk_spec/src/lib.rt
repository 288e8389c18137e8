#![tactic(auto)]

// One group of equations after the other (document 02, Job 10): the second walk as definitions, its refusals as rules, and laws about it: see specs/. No code.
// What a run of one group of equations after the other promises: see specs/Promises.antt. No code.

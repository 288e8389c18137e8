#![tactic(auto)]

// The dispatcher of document 02, job 14, as definitions: see specs/.
// What holds of the dispatcher of document 02, job 14: see specs/.

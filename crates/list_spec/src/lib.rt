#![tactic(auto)]

// The file form of a list: see specs/. No code.
// Laws about the file form of a list: see specs/. No code.

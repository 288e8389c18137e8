#![tactic(auto)]

// What a chain of iterators computes, in the words of the mathematics: see proofs/ChainLaws.antt. No code.

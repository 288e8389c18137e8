// Lists as files (document 02, Job 5): writing one, reading one, and what both share.
#![tactic(auto)]

pub mod read; // read.rt: a file's system, rows and ending
pub mod words; // words.rt: why a list or a file is refused, and words of 32 bits
pub mod write; // write.rt: a list as a file

// Runs made by the calls of the walk, and what they come to.
#![tactic(auto)]

use std::io;

mod by_ref; // by_ref.rt: the calls over a reference and the reader, and the same by value
mod compared; // compared.rt: document 01's "Runs to compare"
mod drawn; // drawn.rt: drawn systems, held against a box

fn main(rt: HostRuntime) -> io::Result<()> {
    compared::all(&rt)?;
    drawn::all(&rt)?;
    by_ref::all(&rt)
}

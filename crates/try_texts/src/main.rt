// Texts read by the readers of maps, equations and files. The input has a section for each, and a line of the sign @ between two; so has what is printed.
#![tactic(auto)]

use std::io;
use try_support::input;

mod equations; // equations.rt: equations read and written
mod files; // files.rt: lists as files
mod maps; // maps.rt: maps, and what is printed for them
mod slices; // slices.rt: parts of texts

// How many bytes of the input are looked through for the signs.
const SEARCHED: usize = 65536;

fn main(rt: HostRuntime) -> io::Result<()> {
    let mut buffer = [0u8; 2 * SEARCHED];
    let n = input::read_full(&mut rt.reader(), &mut buffer[..SEARCHED])?;
    let n = n.min(SEARCHED);
    let (of_maps, rest) = slices::section(&buffer[..n]);
    maps::all(&rt, of_maps)?;
    println!(rt; "@")?;
    let (of_equations, of_files) = slices::section(rest);
    equations::all(&rt, of_equations)?;
    println!(rt; "@")?;
    // the section of files goes on where what was looked through ends
    let at = n.saturating_sub(of_files.len());
    files::all(&rt, &mut buffer[..n + SEARCHED], at, n)
}

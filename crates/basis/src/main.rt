// Lists the minimal solutions of the map on standard input (document 01, "The program"). What it prints is `report`'s contract.
#![tactic(auto)]

ghost use Rattle.std.specs.Prelude.{IfOk, length, ◌≤◌};

use std::io;
use std::io::Read;

fn main(rt: HostRuntime) -> io::Result<()> {
    // one byte more than a text may have, which tells a longer one
    let mut text = [0u8; 4097];
    let n = read_full(&mut rt.reader(), &mut text)?;
    let mut out = [0u8; 91000];
    let end = report::report(&text[..n], &mut out);
    if rt.write_all(&out[0..end]).is_err() {
        return rt.eprintln("basis: cannot write to standard output");
    }
    Ok(())
}

// Reads until `buf` is full or the input ends, and returns how many bytes it put at the start of `buf`.
fn read_full<R: Read>(reader: &mut R, buf: &mut [u8]) -> io::Result<usize>
    ensures { IfOk result (λ n. n ≤ length buf.new) }
{
    let mut done = 0;
    // A while, as it goes by what each read brings, and not by one.
    while done < buf.len() {
        let n = reader.read(&mut buf[done..])?;
        if n == 0 {
            break;
        }
        done += n;
    }
    Ok(done)
}

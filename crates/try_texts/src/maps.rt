// Maps run through `report`. Each line of the section is a heading, which begins with `#`, or a text in an escaped form; what is printed for a text
// is shown below it. At the end come the number of texts, of their bytes and of the bytes printed, the sum of the texts' bytes, which tells that
// the escapes were read as they are meant, and the number of texts for which the space past the report kept what stood there.
use crate::slices;
use std::io;
use try_support::{print, up};

mod escaped; // escaped.rt: the text that an escaped line stands for

// What stands in the space for a report: a byte that no report has.
const BEFORE: u8 = 170;

#[derive(Clone, Copy)]
struct Tally {
    texts: u64,
    bytes: u64,
    sum: u64,
    printed: u64,
    kept: u64,
}

pub fn all(rt: &impl Print, input: &[u8]) -> io::Result<()> {
    let mut t = Tally {
        texts: 0,
        bytes: 0,
        sum: 0,
        printed: 0,
        kept: 0,
    };
    for piece in input.split_inclusive(|b| *b == b'\n') {
        if let Some(text) = piece.strip_suffix(b"\n") {
            line(rt, &mut t, text)?;
        }
    }
    print::line(rt, "texts", t.texts)?;
    print::line(rt, "bytes of the texts", t.bytes)?;
    print::line(rt, "sum of these bytes", t.sum)?;
    print::line(rt, "bytes printed", t.printed)?;
    print::line(rt, "kept what stood past the report", t.kept)
}

fn line(rt: &impl Print, t: &mut Tally, line: &[u8]) -> io::Result<()> {
    rt.write_all(line)?;
    println!(rt; "")?;
    if line.starts_with(b"#") {
        return Ok(());
    }
    let mut space = [0u8; 8192];
    let n = escaped::read(line, &mut space);
    reported(rt, t, slices::part(&space, 0, n))
}

// Shows the report on a text, and counts it.
fn reported(rt: &impl Print, t: &mut Tally, text: &[u8]) -> io::Result<()> {
    let mut out = [BEFORE; 91000];
    let end = report::report(text, &mut out);
    show(rt, slices::part(&out, 0, end))?;
    let past = slices::part(&out, end, out.len());
    t.texts = up(t.texts, true);
    t.bytes = t.bytes.wrapping_add(text.len() as u64);
    t.sum = text
        .iter()
        .fold(t.sum, |sum, b| sum.wrapping_add(u64::from(*b)));
    t.printed = t.printed.wrapping_add(end as u64);
    t.kept = up(t.kept, past.iter().all(|b| *b == BEFORE));
    Ok(())
}

// The lines of a report, each after a mark. A last line that no newline ends is told.
fn show(rt: &impl Print, report: &[u8]) -> io::Result<()> {
    for line in report.split_inclusive(|b| *b == b'\n') {
        print!(rt; "> ")?;
        rt.write_all(line)?;
    }
    if !report.is_empty() && !report.ends_with(b"\n") {
        print!(rt; "\n\\ no newline at the end\n")?;
    }
    Ok(())
}

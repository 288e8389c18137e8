// Files read as the lines of the section say. A line is a heading, which begins with `#` and is printed, or a letter and at most two numbers:
//   b N V   byte N of the file is V
//   t N M   the tables lent have N and M entries
//   r N     the first N bytes are read
//   v N     each bit of the first N bytes is turned in turn, and they are read
// What was read is written again, which must give the same bytes. After a refusal the tables must be as they were.
use crate::slices::{digit, part};
use std::io;
use try_support::{input, print, tables, up};

// What stands in the tables before a call.
const BEFORE: u32 = 77;

#[derive(Clone, Copy)]
struct Rooms {
    coefs: usize,
    list: usize,
}

// The section, which so far stands in `text` from `at` up to `end`. More of it is read behind that only once this is done, so that it is told before a read
// that fails or waits.
pub fn all(rt: &(impl Input + Print), text: &mut [u8], at: usize, end: usize) -> io::Result<()> {
    let mut file = [0u8; 8192];
    let mut rooms = Rooms {
        coefs: 128,
        list: 2048,
    };
    let end = end.min(text.len());
    let first = part(text, at, end);
    lines(rt, first, &mut file, &mut rooms)?;
    let under = under_way(first);
    let heading = under.contains(&b'#');
    let start = end.saturating_sub(under.len());
    let more = input::read_full(&mut rt.reader(), &mut text[end..])?;
    let stop = end.saturating_add(more);
    if !heading {
        return lines(rt, part(text, start, stop), &mut file, &mut rooms);
    }
    // what came of a heading is printed
    let rest = part(text, end, stop);
    let line = rest.split_inclusive(|b| *b == b'\n').next().unwrap_or(&[]);
    rt.write_all(line)?;
    lines(
        rt,
        part(rest, line.len(), rest.len()),
        &mut file,
        &mut rooms,
    )
}

// What came so far of a line that has no end yet.
fn under_way(text: &[u8]) -> &[u8] {
    text.rsplit(|b| *b == b'\n').next().unwrap_or(&[])
}

// Does what each line asks for. A last one without an end is printed if it is a heading, and left if not.
fn lines(rt: &impl Print, text: &[u8], file: &mut [u8; 8192], rooms: &mut Rooms) -> io::Result<()> {
    for piece in text.split_inclusive(|b| *b == b'\n') {
        match piece.iter().position(|b| *b == b'#') {
            Some(heading) => rt.write_all(&piece[heading..])?,
            None => {
                if let Some(line) = piece.strip_suffix(b"\n") {
                    act(rt, line, file, rooms)?;
                }
            }
        }
    }
    Ok(())
}

// What a line asks for: its letter is the last byte that is no digit and no space, and the numbers stand behind it.
fn act(rt: &impl Print, line: &[u8], file: &mut [u8; 8192], rooms: &mut Rooms) -> io::Result<()> {
    let Some(at) = line.iter().rposition(|b| !matches!(b, b' ' | b'0'..=b'9')) else {
        return Ok(());
    };
    let (first, second) = numbers(&line[at + 1..]);
    match line[at] {
        b'b' => {
            tables::put(file, first, (second % 256) as u8);
            Ok(())
        }
        b't' => {
            rooms.coefs = first;
            rooms.list = second;
            Ok(())
        }
        b'r' => show(rt, tables::first(file, first), *rooms),
        b'v' => turned(rt, file, first, *rooms),
        _ => Ok(()),
    }
}

// The first number is between the first two spaces; all other digits are the second's.
fn numbers(text: &[u8]) -> (usize, usize) {
    let mut first = 0;
    let mut second = 0;
    for (k, word) in text.split(|b| *b == b' ').enumerate() {
        for byte in word {
            if k == 1 {
                first = longer(first, *byte);
            } else {
                second = longer(second, *byte);
            }
        }
    }
    (first, second)
}

// A number with one digit more; it stays where it would be long.
fn longer(n: usize, byte: u8) -> usize {
    if n < 100000 { n * 10 + digit(byte) } else { n }
}

// Reads a file, and says what came of it.
fn show(rt: &impl Print, file: &[u8], rooms: Rooms) -> io::Result<()> {
    let mut coefs = [77i32; 128];
    let mut list = [BEFORE; 2048];
    match list_file::read::read_list(
        file,
        tables::first_mut(&mut coefs, rooms.coefs),
        tables::first_mut(&mut list, rooms.list),
    ) {
        Err(why) => {
            print::line(rt, "refused", list_file::words::number_of(why))?;
            expect(rt, coefs[0] == 77, "a coefficient was written")?;
            expect(rt, list[0] == BEFORE, "a row was written")
        }
        Ok(read) => {
            let (p, q, rows, ending) = (read.p, read.q, read.found.0, read.ending);
            println!(rt; "read {p} {q} {rows} {ending}")?;
            let given = tables::first(&coefs, p.saturating_mul(q));
            let listed = tables::first(&list, rows.saturating_mul(q));
            again(rt, file, p, q, given, listed, ending)
        }
    }
}

// Writes what was read, and compares.
fn again(
    rt: &impl Print,
    file: &[u8],
    p: usize,
    q: usize,
    coefs: &[i32],
    list: &[u32],
    ending: u32,
) -> io::Result<()> {
    let mut space = [170u8; 8192];
    let out = tables::first_mut(&mut space, file.len());
    match list_file::write::write_list(p, q, coefs, list, ending, out) {
        Ok(()) => expect(
            rt,
            tables::first(&space, file.len()) == file,
            "another file is written",
        ),
        Err(_) => println!(rt; "no file is written"),
    }
}

fn expect(rt: &impl Print, holds: bool, otherwise: &str) -> io::Result<()> {
    if !holds {
        println!(rt; "{otherwise}")?;
    }
    Ok(())
}

// Turns each bit of the first n bytes in turn, and counts those that the sum of a block tells.
fn turned(rt: &impl Print, file: &mut [u8; 8192], n: usize, rooms: Rooms) -> io::Result<()> {
    let powers = [1u8, 2, 4, 8, 16, 32, 64, 128];
    let mut told = 0;
    for k in 0..8192usize {
        let i = k / 8;
        let was = file[i];
        file[i] = was ^ powers[k % 8];
        told = up(told, answer(tables::first(file, n), rooms) == 20);
        file[i] = was;
    }
    println!(rt; "bits turned 8192, refused 20 {told}")
}

// The number of the refusal of a file, or 0 where it is read.
fn answer(file: &[u8], rooms: Rooms) -> u64 {
    let mut coefs = [77i32; 128];
    let mut list = [BEFORE; 2048];
    match list_file::read::read_list(
        file,
        tables::first_mut(&mut coefs, rooms.coefs),
        tables::first_mut(&mut list, rooms.list),
    ) {
        Err(why) => list_file::words::number_of(why),
        Ok(_) => 0,
    }
}

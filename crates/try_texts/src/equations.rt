// Equations read and written. Each line of the section is a number of unknowns in two digits, a space and a text. Below each text stands what reading it
// answers: the refusal, or what the writer makes of the row that was read.
use crate::slices;
use equation_read::equation::{EquationRefusal, read_equation};
use equation_write::{WriteRefusal, write_equation};
use std::io;
use try_support::{print, tables, up};

pub fn all(rt: &impl Print, input: &[u8]) -> io::Result<()> {
    let mut texts: u64 = 0;
    for piece in input.split_inclusive(|b| *b == b'\n') {
        if let Some(text) = piece.strip_suffix(b"\n") {
            line(rt, text)?;
            texts = up(texts, true);
        }
    }
    print::line(rt, "texts", texts)
}

// Two digits, a space and a text.
fn line(rt: &impl Print, line: &[u8]) -> io::Result<()> {
    let [tens, ones, _, text @ ..] = line else {
        return println!(rt; "no text");
    };
    rt.write_all(text)?;
    println!(rt; "")?;
    let q = slices::digit(*tens) * 10 + slices::digit(*ones);
    if 17 < q {
        return println!(rt; "more unknowns than there is space for");
    }
    let mut row = [0i32; 17];
    told(rt, text, q, tables::first_mut(&mut row, q))
}

fn told(rt: &impl Print, text: &[u8], q: usize, row: &mut [i32]) -> io::Result<()> {
    match read_equation(text, q, row) {
        Err(why) => refused(rt, why),
        Ok(right) => written(rt, q, row, right),
    }
}

fn refused(rt: &impl Print, why: EquationRefusal) -> io::Result<()> {
    match why {
        EquationRefusal::Length => println!(rt; "refused 10"),
        EquationRefusal::Unknowns => println!(rt; "refused 2"),
        EquationRefusal::Row => println!(rt; "refused 3"),
        EquationRefusal::Grammar(place) => println!(rt; "refused 16 place {place}"),
        EquationRefusal::Depth => println!(rt; "refused 17"),
        EquationRefusal::Multiplier => println!(rt; "refused 18"),
        EquationRefusal::Coefficient(place) => println!(rt; "refused 7 place {place}"),
        EquationRefusal::RightSide => println!(rt; "refused 15"),
    }
}

fn written(rt: &impl Print, q: usize, row: &[i32], right: i32) -> io::Result<()> {
    let mut out = [0u8; 256];
    match write_equation(q, row, right, &mut out) {
        Ok(n) => {
            rt.write_all(slices::part(&out, 0, n))?;
            println!(rt; "")
        }
        Err(WriteRefusal::Row(_)) => println!(rt; "not written"),
        Err(WriteRefusal::RightSide) => println!(rt; "right side not written"),
        Err(WriteRefusal::Space) => println!(rt; "no space to write"),
    }
}

// Replays calls that models outside Rattle wrote down, one a line, each with what must come of it; counts those that do; and names the first lines that do not.
// The text has a section for each family of calls: it begins with a line of the sign @ and the number of the family, and then says what its words mean.
#![tactic(auto)]

use std::io;
use try_support::input;
use try_support::line::{Line, Word};
use try_support::tally::Tally;

mod answered; // answered.rt: whether an answer is the one that a line says
mod capped; // capped.rt: plain and capped runs, runs from a lower bound and the training seat (tests/model/runs.py)
mod desks; // desks.rt: the second of two groups of equations (tests/desks/vectors.py)
mod several; // several.rt: several runs in turns (tests/model/dispatch.py)
mod engine_calls; // engine_calls.rt: the engine (tests/engine/vectors.py)
mod questions; // questions.rt: questions about lists (tests/questions/model.py)
mod plain; // plain.rt: document 01's calls and single-file maps (tests/model)
mod reformulations; // reformulations.rt: a map in the place of another (tests/reformulation/model.py)

// The families of calls, by the numbers of their sections.
#[derive(Clone, Copy)]
enum Family {
    Plain,
    Capped,
    Desks,
    Several,
    Engine,
    Questions,
    Reformulations,
}

impl Family {
    // The family of a section's number.
    fn numbered(n: u64) -> Option<Family> {
        match n {
            1 => Some(Family::Plain),
            2 => Some(Family::Capped),
            3 => Some(Family::Desks),
            4 => Some(Family::Several),
            5 => Some(Family::Engine),
            6 => Some(Family::Questions),
            7 => Some(Family::Reformulations),
            _ => None,
        }
    }
}

// What was read so far of the line and the word under way; the family of the section; and what its lines before came to.
#[derive(Clone, Copy)]
struct State {
    line: Line,
    word: Word,
    family: Option<Family>,
    tally: Tally,
}

fn main(rt: HostRuntime) -> io::Result<()> {
    let mut s = State {
        line: Line::new(),
        word: Word::new(),
        family: None,
        tally: Tally::new(),
    };
    for _ in 0..128u64 {
        piece(&rt, &mut s)?;
    }
    report(&rt, s.family, &s.tally)
}

// The next 65,536 bytes of the text, or what is left of it.
fn piece(rt: &(impl Input + Print), s: &mut State) -> io::Result<()> {
    let mut text = [0u8; 65536];
    let n = input::read_full(&mut rt.reader(), &mut text)?;
    for b in &text[..n] {
        read(rt, s, *b)?;
    }
    Ok(())
}

// One more byte: of a word, the end of a word, or the end of a line.
fn read(rt: &impl Print, s: &mut State, b: u8) -> io::Result<()> {
    if b' ' < b {
        s.word.push(b);
        return Ok(());
    }
    s.line.push(s.word);
    s.word = Word::new();
    if b != b' ' {
        ended(rt, s)?;
        s.line = Line::new();
    }
    Ok(())
}

// Counts a line that is at its end. One that begins a section has no call, and what was counted in the section before is reported.
fn ended(rt: &impl Print, s: &mut State) -> io::Result<()> {
    let Some(kind) = s.line.kind else {
        s.tally.line();
        return Ok(());
    };
    if kind == b'@' {
        report(rt, s.family, &s.tally)?;
        s.tally = Tally::new();
        s.family = Family::numbered(s.line.operands[0]);
        return Ok(());
    }
    s.tally.line();
    if kind != b'#' {
        let agreed = agrees(s.family, kind, &s.line);
        s.tally.call(rt, kind, agreed)?;
    }
    Ok(())
}

// Whether the call of a line comes to what the line says.
fn agrees(family: Option<Family>, kind: u8, l: &Line) -> bool {
    let Some(family) = family else {
        return false;
    };
    match family {
        Family::Plain => plain::agrees(kind, l),
        Family::Capped => capped::agrees(kind, l),
        Family::Desks => desks::agrees(kind, l),
        Family::Several => several::agrees(l),
        Family::Engine => engine_calls::agrees(kind, l),
        Family::Questions => questions::agrees(kind, l),
        Family::Reformulations => reformulations::agrees(kind, l),
    }
}

// The name of the family, and what the lines of its section came to: by the kinds of calls, and all together.
fn report(rt: &impl Print, family: Option<Family>, t: &Tally) -> io::Result<()> {
    let Some(family) = family else {
        return Ok(());
    };
    match family {
        Family::Plain => {
            println!(rt; "plain")?;
            t.report_kinds(rt, &plain::KINDS)?;
            t.report(rt)
        }
        Family::Capped => {
            println!(rt; "capped")?;
            t.report_kinds(rt, &capped::KINDS)?;
            t.report(rt)
        }
        Family::Desks => {
            println!(rt; "desks")?;
            t.report(rt)
        }
        Family::Several => {
            println!(rt; "several")?;
            t.report(rt)
        }
        Family::Engine => {
            println!(rt; "engine")?;
            t.report(rt)
        }
        Family::Questions => {
            println!(rt; "questions")?;
            t.report_kinds(rt, &questions::KINDS)
        }
        Family::Reformulations => {
            println!(rt; "reformulation")?;
            t.report_kinds(rt, &reformulations::KINDS)
        }
    }
}

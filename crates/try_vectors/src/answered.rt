// Whether an answer is the one that a line says.
use calls::{Answer, Record, Refusal};
use try_support::line::Line;

pub fn answers(l: &Line, a: Answer) -> bool {
    match a {
        Answer::Started => l.answer == Some(b'S'),
        Answer::Complete => l.answer == Some(b'C'),
        Answer::Paused => l.answer == Some(b'P'),
        Answer::Refused(why) => refuses(l, why),
    }
}

pub fn refuses(l: &Line, why: Refusal) -> bool {
    l.answer == Some(b'R')
        && calls::number_of(why) == l.answered[0]
        && calls::value_of(why) as u64 == l.answered[1]
}

// Whether a record's height, solutions and steps are those that stand from word `from` on.
pub fn counts(l: &Line, from: usize, r: Record) -> bool {
    let words = l.record.after.get(from..).unwrap_or(&[]);
    words.starts_with(&[r.height as u64, r.found.0 as u64, r.steps.0])
}

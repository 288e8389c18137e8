// What the program `basis` prints (document 01, "The program"), as a function of the text that it reads.
#![tactic(auto)]

ghost use Rattle.std.specs.Prelude.{◌≡◌, [], ◌+◌, ◌*◌, ◌≤◌, length, take, drop};
ghost use Rattle.map_text.specs.Answer as reading;
ghost use Rattle.definitions.specs.Input.{input_of};
ghost use Rattle.calls.specs.Paper.{answer_of, number_of, outcome_of};
ghost use Rattle.report_spec.specs.Printed as paper;
ghost use Rattle.texts.specs.Put.{Put};

use calls::{Answer, Outcome, Record, Solutions, Steps};
use map_text::TextRefusal;

mod lines; // lines.rt: lines of the report

// The budget of the program's one continuing call.
const BUDGET: u64 = 1000000;

// Writes the report on `text` to the beginning of `out`, and returns how many bytes it has. There is no heap: the caller lends the buffer, and every
// writer below takes the place to write at and returns the place after it.
pub fn report(text: &[u8], out: &mut [u8; 91000]) -> usize
    ensures out_after { take result out.new ≡ paper.printed text.now }
    ensures out_unchanged { drop result out.new ≡ drop result out.old }
    ensures upper_bound { result ≤ length out.new }
{
    let mut coefs = [0i32; 128];
    match map_text::read_map(text, &mut coefs) {
        Err(why) => refused(out, why),
        Ok(map) => {
            let n = map.p * map.q;
            solved(out, map.p, map.q, &coefs[..n])
        }
    }
}

// The report on a text that is refused.
fn refused(out: &mut [u8], why: TextRefusal) -> usize
    requires { 91000 ≤ length out.old }
    ensures { Put out.old 0 (paper.refusal_text (reading.number_of why) (reading.values_of why)) out.new result }
{
    match why {
        TextRefusal::Equations => lines::counted(out, 0, b"refused ", 1),
        TextRefusal::Unknowns => lines::counted(out, 0, b"refused ", 2),
        TextRefusal::Coefficient(place) => lines::refused_with(out, 7, b" place ", place),
        TextRefusal::Form(line) => lines::refused_with(out, 9, b" line ", line),
        TextRefusal::Length => lines::counted(out, 0, b"refused ", 10),
    }
}

// The report on a map whose coefficients are given: a plain start, and one continuing call.
fn solved(out: &mut [u8], p: usize, q: usize, coefs: &[i32]) -> usize
    requires { 91000 ≤ length out.old }
    ensures { Put out.old 0 (paper.run_text p q (paper.run (input_of p q coefs.now))) out.new result }
{
    let mut stack = [0u32; 272];
    let mut list = [0u32; 8192];
    let blank = Record::new(0, Solutions(0), Steps(0));
    let begun = starts::started(p, q, coefs, &mut stack, &mut list, blank);
    let run = begun.run;
    let ended = walk::resumed(
        p,
        q,
        coefs,
        &mut stack,
        &mut list,
        run,
        BUDGET,
        calls::COMPONENT_LIMIT,
    );
    ran(out, p, q, ended, &list)
}

// The report on a run; it says nothing of the stack.
fn ran(out: &mut [u8], p: usize, q: usize, ended: Outcome, list: &[u32]) -> usize
    requires { (91000 ≤ length out.old) × (ended.run.found.0 * q ≤ length list.now) × (length list.now ≤ 8192) }
    ensures { Put out.old 0 (paper.run_text p q (outcome_of ended [] list.now)) out.new result }
{
    let answer = ended.answer;
    let run = ended.run;
    let rows = counts(out, p, q, run.steps, run.found);
    let end = lines::rows(out, rows, list, run.found.0, q);
    ending(out, end, answer)
}

// The first four lines.
fn counts(out: &mut [u8], p: usize, q: usize, steps: Steps, found: Solutions) -> usize
    requires { 119 ≤ length out.old }
    ensures put { Put out.old 0 (paper.counts p q steps.0 found.0) out.new result }
    ensures upper_bound { result ≤ 119 }
{
    let second = lines::counted(out, 0, b"equations ", p as u64);
    let third = lines::counted(out, second, b"unknowns ", q as u64);
    let fourth = lines::counted(out, third, b"steps ", steps.0);
    lines::counted(out, fourth, b"solutions ", found.0 as u64)
}

// The last line.
fn ending(out: &mut [u8], at: usize, answer: Answer) -> usize
    requires { at + 40 ≤ length out.old }
    ensures { Put out.old at (paper.ending (answer_of answer)) out.new result }
{
    match answer {
        Answer::Started => at,
        Answer::Complete => texts::put::word(out, at, b"end complete\n"),
        Answer::Paused => texts::put::word(out, at, b"end paused\n"),
        Answer::Refused(why) => lines::counted(out, at, b"end refused ", calls::number_of(why)),
    }
}

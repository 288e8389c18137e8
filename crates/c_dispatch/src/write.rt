// What is told.
ghost use Rattle.std.specs.Prelude.{◌≡◌, ◌+◌, ◌*◌, ◌<◌, length};
ghost use Rattle.calls.specs.Paper.{answer_of, run_of};
ghost use Rattle.dispatch.specs.Form.{fault_of};
ghost use Rattle.c_dispatch.specs.Words.{answer_number, answer_place, write_counts, write_others, write_record, write_run};
ghost use Rattle.c_dispatch.specs.WordLaws.{Fitting, left_by, served_by, told_by};

use calls::{Answer, Outcome, Record};
use dispatch::types::{Dispatched, Fault};

// The number of an answer.
fn number(answer: Answer) -> u64
    ensures { result ≡ answer_number (answer_of answer) }
{
    match answer {
        Answer::Started => 100,
        Answer::Complete => 0,
        Answer::Paused => 101,
        Answer::Refused(why) => calls::number_of(why),
    }
}

// The place that it comes with.
fn place(answer: Answer) -> u64
    ensures { result ≡ answer_place (answer_of answer) }
{
    match answer {
        Answer::Refused(why) => calls::value_of(why) as u64,
        Answer::Started | Answer::Complete | Answer::Paused => 0,
    }
}

// The number of a refusal of the whole call.
fn fault(why: Fault) -> u64
    ensures { result ≡ fault_of why }
{
    match why {
        Fault::Schedule => 27,
        Fault::Parts => 28,
    }
}

// Writes the seven words of a run's record; words whose kind is no kind's number stay as they are.
fn record(words: &mut [u64], at: usize, r: Record)
    requires { at + 6 < length words.old }
    ensures { words.new ≡ write_record words.old at (run_of r) }
{
    if words[at + 3] < 5 {
        counts(words, at, r);
        others(words, at, r);
    }
}

fn counts(words: &mut [u64], at: usize, r: Record)
    requires { at + 6 < length words.old }
    ensures { words.new ≡ write_counts words.old at (run_of r) }
{
    words[at] = r.height as u64;
    words[at + 1] = r.found.0 as u64;
    words[at + 2] = r.steps.0;
}

fn others(words: &mut [u64], at: usize, r: Record)
    requires { at + 6 < length words.old }
    ensures { words.new ≡ write_others words.old at (run_of r) }
{
    words[at + 3] = calls::run_number(r.kind);
    words[at + 4] = r.found2.0 as u64;
    words[at + 5] = r.steps2.0;
    words[at + 6] = r.deepest;
}

// Writes what a run answered and left.
fn run(words: &mut [u64], at: usize, o: Outcome)
    requires { at + 8 < length words.old }
    ensures { words.new ≡ write_run words.old at (run_of o.run) (answer_of o.answer) }
{
    record(words, at, o.run);
    words[at + 7] = number(o.answer);
    words[at + 8] = place(o.answer);
}

// Writes what eight runs answered and left.
fn runs(words: &mut [u64], outcomes: [Outcome; 8])
    requires { length words.old ≡ 74 }
    ensures { words.new ≡ left_by 8 words.old outcomes }
{
    for i in 0..8 {
        run(words, 2 + 9 * i, outcomes[i]);
    }
}

// Writes what a call that was not refused answered and left.
fn served(words: &mut [u64], d: Dispatched)
    requires { length words.old ≡ 74 }
    ensures { words.new ≡ served_by words.old d }
{
    let outcomes = d.outcomes;
    words[0] = d.last as u64;
    words[1] = d.steps.0;
    runs(words, outcomes);
}

// The number of the call; the words are written where it was not refused.
pub fn told(words: &mut [u64], d: Dispatched) -> u64
    requires { Fitting d.verdict words.old }
    ensures { (result, words.new) ≡ told_by d.verdict words.old d }
{
    match d.verdict {
        Err(why) => fault(why),
        Ok(()) => {
            served(words, d);
            110
        }
    }
}

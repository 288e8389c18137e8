// The run record as words, and answers as one number: what the calls for other languages share (specs/Words.antt, Codes.antt).
#![tactic(auto)]

ghost use Rattle.std.specs.Prelude.{◌≡◌, ◌^◌, ◌<◌};
ghost use Rattle.calls.specs.Paper.{answer_of, run_of};
ghost use Rattle.c_record.specs.Codes.{code};
ghost use Rattle.c_record.specs.Words.{words_left};

use calls::Outcome;

pub mod answers; // answers.rt: an answer as one number
pub mod misfit; // misfit.rt: what a start is told whose words are no record
pub mod words; // words.rt: the run record as words

// Puts the run record back, and gives the answer as a number.
pub fn tell(o: Outcome, run: &mut [u64]) -> u64
    requires { code (answer_of o.answer) < 2 ^ 64 }
    ensures value { result ≡ code (answer_of o.answer) }
    ensures run_after { run.new ≡ words_left run.old (run_of o.run) }
{
    words::write(run, o.run);
    answers::number(o.answer)
}

// What the engine keeps beside the rows of a stage: their values, degrees and words, each in a table of its own; whether rows and degrees are in order; and the
// record of its run, with what its calls leave.
#![tactic(auto)]

ghost use Rattle.std.specs.Prelude.{◌≡◌};
ghost use Rattle.engine_beside.specs.Records.{refused_with};

use calls::{Answer, Refusal, Solutions, Steps};

pub mod degrees; // degrees.rt: the degrees of rows
pub mod places; // places.rt: what is done at each of n places
pub mod small; // small.rt: whether rows are within the component limit
pub mod values; // values.rt: the values of rows under one equation
pub mod words; // words.rt: the words of rows, and the tests on them

// The record of a run: the equations done, as marks; the equation of the stage under way, p where there is none; its fresh unknown, q where there is none; the
// rows of the basis and of the stage; and where the stage stands: the row of the basis, the degree and the pair that are next. The steps taken. The cap on the
// first unknown, 0 where there is none.
#[derive(Clone, Copy)]
pub struct Record {
    pub done: u32,
    pub equation: usize,
    pub fresh: usize,
    pub count: Solutions,
    pub rows: usize,
    pub taken: usize,
    pub degree: u64,
    pub upper: usize,
    pub lower: usize,
    pub steps: Steps,
    pub cap: u64,
}

// The lengths of the tables beside the basis and the stage.
#[derive(Clone, Copy)]
pub struct Beside {
    pub sizes: usize,
    pub values: usize,
    pub words: usize,
    pub degrees: usize,
    pub marks: usize,
    pub mothers: usize,
}

// What a call answers, and the record that it leaves.
#[derive(Clone, Copy)]
pub struct Outcome {
    pub answer: Answer,
    pub run: Record,
}

// What a call that is refused before its work answers: the record stays.
pub fn refused(why: Refusal, r: Record) -> Outcome
    ensures { result ≡ refused_with why r }
{
    Outcome {
        answer: Answer::Refused(why),
        run: r,
    }
}

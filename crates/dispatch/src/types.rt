// What a caller hands over and gets back.
use calls::{Answer, Outcome, Record, Steps};

// A part of a table: where it begins, and how many numbers it has.
#[derive(Clone, Copy)]
pub struct Part {
    pub start: usize,
    pub size: usize,
}

// What a run goes by: its map, whose coefficients are a part of one slice, and its parts of the two tables. Coefficients that leave the slice are missing,
// so that they are the run's own refusal 3.
#[derive(Clone, Copy)]
pub struct Share {
    pub p: usize,
    pub q: usize,
    pub coefs: Part,
    pub stack: Part,
    pub list: Part,
}

// How far a run has come: its record, and what its last turn in the call answered.
#[derive(Clone, Copy)]
pub struct Progress {
    pub run: Record,
    pub last: Option<Answer>,
}

// Why a call is refused as a whole: 27 and 28.
#[derive(Clone, Copy)]
pub enum Fault {
    Schedule,
    Parts,
}

// What a call returns: whether it was refused as a whole; for each run what it answers and the record that it leaves; the number of the run served
// last; and the steps that the runs took. A place past the number of runs, and each place of a call that was refused, has the answer `Started`, which no turn
// gives, and its record as it was handed over.
#[derive(Clone, Copy)]
pub struct Dispatched {
    pub verdict: Result<(), Fault>,
    pub outcomes: [Outcome; 8],
    pub last: usize,
    pub steps: Steps,
}

// What a caller hands over and gets back, and the number of each refusal in documents 01 and 02.
#![tactic(auto)]

ghost use Rattle.std.specs.Prelude.{◌≡◌};
ghost use Rattle.definitions.specs.Input.{limit_of};
ghost use Rattle.definitions.specs.Tables.{is_run, run_number};
ghost use Rattle.calls.specs.Paper.{number_of, values_of, value, kind_of, record_of, plain_part_of, plain_record, begins, refuses, leaves};

pub mod codes; // codes.rt: an answer as one number, for other languages

// "A tuple gives each unknown a natural number, at most 1,000,000."
pub const COMPONENT_LIMIT: u32 = 1000000;

// "14: steps taken stand at 1,000,000,000,000."
pub const STEP_LIMIT: u64 = 1000000000000;

// "(Refusal 6 also covers a value above 16,000,000.)"
pub const DEEPEST_LIMIT: u64 = 16000000;

// Steps taken.
#[derive(Clone, Copy)]
pub struct Steps(pub u64);

// Solutions found.
#[derive(Clone, Copy)]
pub struct Solutions(pub usize);

// The kinds of run, as the run record has them.
#[derive(Clone, Copy, PartialEq, Eq)]
pub enum RunKind {
    Plain,
    Capped,
    LowerPlain,
    LowerAbove,
    Desks,
}

// The number of a kind of run.
pub fn run_number(kind: RunKind) -> u64
    ensures { result ≡ run_number (kind_of kind) }
{
    match kind {
        RunKind::Plain => 0,
        RunKind::Capped => 1,
        RunKind::LowerPlain => 2,
        RunKind::LowerAbove => 3,
        RunKind::Desks => 4,
    }
}

// Whether two kinds of run are one.
pub fn same_run(a: RunKind, b: RunKind) -> bool
    ensures { result ≡ is_run (kind_of a) (kind_of b) }
{
    a == b
}

// The run record. Where a run has two lists, `found2` counts the rows of the second one; of a run from a lower bound `steps2` are the steps of its plain walk.
#[derive(Clone, Copy)]
pub struct Record {
    pub kind: RunKind,
    pub height: usize,
    pub found: Solutions,
    pub steps: Steps,
    pub found2: Solutions,
    pub steps2: Steps,
    pub deepest: u64,
}

impl Record {
    // The record of a plain run that shows no depth yet.
    pub fn new(height: usize, found: Solutions, steps: Steps) -> Record
        ensures { result ≡ plain_record height found steps }
    {
        Record::of(
            RunKind::Plain,
            height,
            found,
            steps,
            Solutions(0),
            Steps(0),
            0,
        )
    }

    // A run record of its parts.
    pub fn of(
        kind: RunKind,
        height: usize,
        found: Solutions,
        steps: Steps,
        found2: Solutions,
        steps2: Steps,
        deepest: u64,
    ) -> Record
        ensures { result ≡ record_of kind height found steps found2 steps2 deepest }
    {
        Record {
            kind,
            height,
            found,
            steps,
            found2,
            steps2,
            deepest,
        }
    }
}

// What the plain walk of a run from a lower bound sees of its record: that of a plain run, with the counts of the second list and of that walk.
pub fn plain_part(r: Record) -> Record
    ensures { result ≡ plain_part_of r }
{
    Record::of(
        RunKind::Plain,
        r.height,
        r.found2,
        r.steps2,
        r.found,
        r.steps,
        r.deepest,
    )
}

// The limit of components that counts.
pub fn limit_of(limit: u32) -> u32
    ensures { result ≡ limit_of limit }
{
    if limit < 1 {
        return 1;
    }
    if COMPONENT_LIMIT < limit {
        return COMPONENT_LIMIT;
    }
    limit
}

// Why a call is refused; specs/Paper.antt has the documents' number for each.
#[derive(Clone, Copy)]
pub enum Refusal {
    Equations,
    Unknowns,
    CoefficientCount,
    TableLength,
    BoundLength,
    OutOfOrder,
    Coefficient(usize),
    BoundRange,
    ListFull,
    ComponentLimit,
    StepLimit,
    RightSide,
    SeatUnknowns,
    SeatComponent,
    Generators,
    Column(usize),
    TablesFull,
    NotLeft,
    NotFresh,
    NotOperation,
    ShiftedSide(usize),
}

// What a call answers.
#[derive(Clone, Copy)]
pub enum Answer {
    Started,
    Complete,
    Paused,
    Refused(Refusal),
}

// What a call answers, and the run record that it leaves.
#[derive(Clone, Copy)]
pub struct Outcome {
    pub answer: Answer,
    pub run: Record,
}

// What a start that is not refused answers.
pub fn begun(kind: RunKind, height: usize) -> Outcome
    ensures { result ≡ begins kind height }
{
    let found = Solutions(0);
    let run = Record::of(kind, height, found, Steps(0), Solutions(0), Steps(0), 0);
    Outcome {
        answer: Answer::Started,
        run,
    }
}

// What a call that is refused before its walk answers: the record stays.
pub fn refused(why: Refusal, r: Record) -> Outcome
    ensures { result ≡ refuses why r }
{
    Outcome {
        answer: Answer::Refused(why),
        run: r,
    }
}

// What a call that has walked answers: the record with its counts and its depth moved.
pub fn left(
    answer: Answer,
    r: Record,
    height: usize,
    found: usize,
    steps: u64,
    found2: usize,
    deepest: u64,
) -> Outcome
    ensures { result ≡ leaves answer r height found steps found2 deepest }
{
    let kind = r.kind;
    let run = Record::of(
        kind,
        height,
        Solutions(found),
        Steps(steps),
        Solutions(found2),
        r.steps2,
        deepest,
    );
    Outcome { answer, run }
}

// The documents' number of a refusal.
pub fn number_of(why: Refusal) -> u64
    ensures { result ≡ number_of why }
{
    match why {
        Refusal::Equations => 1,
        Refusal::Unknowns => 2,
        Refusal::CoefficientCount => 3,
        Refusal::TableLength => 4,
        Refusal::BoundLength => 5,
        Refusal::OutOfOrder => 6,
        Refusal::Coefficient(_) => 7,
        Refusal::BoundRange => 8,
        Refusal::ListFull => 11,
        Refusal::ComponentLimit => 12,
        Refusal::StepLimit => 14,
        Refusal::RightSide => 15,
        Refusal::SeatUnknowns => 23,
        Refusal::SeatComponent => 24,
        Refusal::Generators => 25,
        Refusal::Column(_) => 26,
        Refusal::TablesFull => 31,
        Refusal::NotLeft => 32,
        Refusal::NotFresh => 33,
        Refusal::NotOperation => 34,
        Refusal::ShiftedSide(_) => 35,
    }
}

// The value that it comes with: the place for 7 and 35, the column for 26, and 0 for all others.
pub fn value_of(why: Refusal) -> usize
    ensures { result ≡ value (values_of why) }
{
    match why {
        Refusal::Coefficient(place) => place,
        Refusal::ShiftedSide(place) => place,
        Refusal::Column(column) => column,
        _ => 0,
    }
}

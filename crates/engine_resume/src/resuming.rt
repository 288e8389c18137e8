// The continuing call after its checks: what stands beside the rows is written anew, whatever it was; then the stage's turns.
ghost use Rattle.std.specs.Prelude.{◌≡◌, cond, ◌^◌, ◌-◌, ◌≤◌, eqb, length};
ghost use Rattle.definitions.specs.Answers.{complete, paused as paused_answer};
ghost use Rattle.calls.specs.Paper.{answer_of};
ghost use Rattle.calls.specs.declared.Answer.TheVariants.{Paused};
ghost use Rattle.engine_beside.specs.Records.{leaves, outcome_of, work_of};
ghost use Rattle.engine_stage.specs.Running.{answer_of as stopped_of};
ghost use Rattle.engine_stage.specs.Standing.{sides_of};
ghost use Rattle.engine_ends.specs.Closing.{Closing};
ghost use Rattle.engine_resume.specs.EngineLaws.{ended};
ghost use Rattle.engine_resume.specs.Resuming.{Advanced, Entered, ResumedTo, Writable, Written, record_at, start_of};

use calls::{Answer, Refusal, Steps};
use engine_beside::{Outcome, Record, degrees as measures, values as numbers, words as fields};
use engine_rows::marks as magnitudes;
use engine_stage::stages;
use engine_stage::stages::Ran;
use engine_stage::turns::{Frame, Next, Stop};

// At most `budget` turns, and the end of the stage where they come to it.
pub fn go_on(
    p: usize,
    q: usize,
    most: usize,
    room: usize,
    equations: &[i32],
    basis: &mut [u32],
    sizes: &mut [u32],
    table: &mut [u32],
    values: &mut [i64],
    words: &mut [u64],
    degrees: &mut [u32],
    marks: &mut [u64],
    mothers: &mut [u32],
    r: Record,
    budget: u64,
) -> Outcome
    requires { Entered p q most room equations.now basis.old sizes.old table.old
        (sides_of values.old words.old degrees.old marks.old mothers.old) r }
    ensures { ResumedTo p q most room budget equations.now basis.old sizes.old table.old
        (sides_of values.old words.old degrees.old marks.old mothers.old) r result
        basis.new sizes.new table.new
        (sides_of values.new words.new degrees.new marks.new mothers.new) }
{
    let ran = advance(
        p, q, most, room, equations, basis, sizes, table, values, words, degrees, marks, mothers,
        r, budget,
    );
    let next = ran.next;
    let stopped = ran.stopped;
    close(
        p,
        q,
        most,
        equations,
        basis,
        table,
        values,
        stand(r, next),
        stopped,
    )
}

// The tables beside the rows written, then the turns.
fn advance(
    p: usize,
    q: usize,
    most: usize,
    room: usize,
    equations: &[i32],
    basis: &[u32],
    sizes: &mut [u32],
    table: &mut [u32],
    values: &mut [i64],
    words: &mut [u64],
    degrees: &mut [u32],
    marks: &mut [u64],
    mothers: &mut [u32],
    r: Record,
    budget: u64,
) -> Ran
    requires { Entered p q most room equations.now basis.now sizes.old table.old
        (sides_of values.old words.old degrees.old marks.old mothers.old) r }
    ensures { Advanced q room budget equations.now basis.now sizes.old table.old
        (sides_of values.old words.old degrees.old marks.old mothers.old) r result
        sizes.new table.new
        (sides_of values.new words.new degrees.new marks.new mothers.new) }
{
    let m = r.count.0;
    let n = r.rows;
    let from = r.equation * q;
    write_beside(
        equations, from, basis, m, sizes, table, n, q, values, words, degrees, marks, mothers,
    );
    let f = Frame {
        q,
        m,
        room,
        from,
        cap: r.cap,
    };
    let s = begin(r);
    stages::run(
        f, equations, basis, sizes, table, values, words, degrees, marks, mothers, s, budget,
    )
}

fn begin(r: Record) -> Next
    ensures { result ≡ start_of r }
{
    Next {
        rows: r.rows,
        taken: r.taken,
        degree: r.degree,
        upper: r.upper,
        lower: r.lower,
        steps: r.steps.0,
        first: r.rows,
        more: true,
    }
}

fn write_beside(
    coefs: &[i32],
    from: usize,
    basis: &[u32],
    m: usize,
    sizes: &mut [u32],
    table: &[u32],
    n: usize,
    q: usize,
    values: &mut [i64],
    words: &mut [u64],
    degrees: &mut [u32],
    marks: &mut [u64],
    mothers: &[u32],
)
    requires { Writable coefs.now from basis.now m (length sizes.old) table.now n q (length values.old) (length words.old)
        (length degrees.old) (length marks.old) (length mothers.now) }
    ensures { Written coefs.now from basis.now m table.now n q sizes.old
        (sides_of values.old words.old degrees.old marks.old mothers.now)
        sizes.new
        (sides_of values.new words.new degrees.new marks.new mothers.now) }
{
    measures::write_degrees(basis, m, q, sizes);
    numbers::write_values(coefs, from, table, n, q, values);
    fields::write_words(table, n, q, words);
    measures::write_degrees(table, n, q, degrees);
    magnitudes::write_marks(table, values, mothers, n, q, marks);
}

// The record with the stage where it stands.
fn stand(r: Record, s: Next) -> Record
    ensures { result ≡ record_at r s }
{
    let steps = Steps(s.steps);
    let count = r.count;
    Record {
        done: r.done,
        equation: r.equation,
        fresh: r.fresh,
        count,
        rows: s.rows,
        taken: s.taken,
        degree: s.degree,
        upper: s.upper,
        lower: s.lower,
        steps,
        cap: r.cap,
    }
}

// What the call answers, by what stopped the turns.
#[tactic(auto, unfolding(crate::specs::EngineLaws::ended))]
fn close(
    p: usize,
    q: usize,
    most: usize,
    equations: &[i32],
    basis: &mut [u32],
    table: &[u32],
    values: &[i64],
    r: Record,
    stopped: Option<Stop>,
) -> Outcome
    requires { Closing p q most equations.now basis.old table.now values.now r }
    ensures { outcome_of result equations.now basis.new table.now
        ≡ ended p q most (stopped_of stopped) (work_of equations.now basis.old table.now r) }
{
    match stopped {
        None => paused(r),
        Some(Stop::Late) => engine_beside::refused(Refusal::StepLimit, r),
        Some(Stop::Large) => engine_beside::refused(Refusal::ComponentLimit, r),
        Some(Stop::Full) => engine_beside::refused(Refusal::TablesFull, r),
        Some(Stop::Ends) => engine_ends::finish(p, q, most, equations, basis, table, values, r),
    }
}

fn paused(r: Record) -> Outcome
    ensures { result ≡ leaves Paused r }
{
    Outcome {
        answer: Answer::Paused,
        run: r,
    }
}

// What a call answers that finds no stage under way.
pub fn rested(p: usize, r: Record) -> Outcome
    requires { p ≤ 32 }
    ensures { (result.run ≡ r) × (answer_of result.answer ≡ cond (eqb r.done (2 ^ p - 1)) complete paused_answer) }
{
    let answer = engine_ends::answer_for(p, r.done);
    Outcome { answer, run: r }
}

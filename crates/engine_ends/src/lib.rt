// The end of a stage: what it leaves becomes the basis.
#![tactic(auto)]

ghost use Rattle.std.specs.Prelude.{◌≡◌, ◌+◌, ◌^◌, ◌-◌, ◌≤◌, ◌<◌, cond, eqb};
ghost use Rattle.definitions.specs.Answers.{complete, paused};
ghost use Rattle.engine_spec.specs.Engine.{finish as finish_of};
ghost use Rattle.calls.specs.Paper.{answer_of};
ghost use Rattle.engine_beside.specs.Records.{outcome_of, work_of};
ghost use Rattle.engine_ends.specs.Closing.{Closing, Ends, RestsLeft};

use calls::{Answer, Refusal, Solutions, Steps};
use engine_beside::{Outcome, Record};
use engine_rows::packing;

pub fn finish(
    p: usize,
    q: usize,
    most: usize,
    equations: &[i32],
    basis: &mut [u32],
    table: &[u32],
    values: &[i64],
    r: Record,
) -> Outcome
    requires { Closing p q most equations.now basis.old table.now values.now r }
    ensures { outcome_of result equations.now basis.new table.now
        ≡ finish_of p q most (work_of equations.now basis.old table.now r) }
{
    if r.fresh < q {
        return finish_fresh(p, q, most, equations, basis, table, values, r);
    }
    finish_plain(p, q, most, equations, basis, table, values, r)
}

// The rows of value 0.
fn finish_plain(
    p: usize,
    q: usize,
    most: usize,
    equations: &[i32],
    basis: &mut [u32],
    table: &[u32],
    values: &[i64],
    r: Record,
) -> Outcome
    requires { Closing p q most equations.now basis.old table.now values.now r × (q ≤ r.fresh) }
    ensures { outcome_of result equations.now basis.new table.now
        ≡ finish_of p q most (work_of equations.now basis.old table.now r) }
{
    let n = r.rows;
    let count = packing::count_zeros(values, n);
    if most < count {
        return engine_beside::refused(Refusal::TablesFull, r);
    }
    packing::keep_zeros(basis, table, values, n, q);
    rests(p, q, r, count)
}

// The rows of value 0 or more, each with its value in the fresh unknown.
fn finish_fresh(
    p: usize,
    q: usize,
    most: usize,
    equations: &[i32],
    basis: &mut [u32],
    table: &[u32],
    values: &[i64],
    r: Record,
) -> Outcome
    requires { Closing p q most equations.now basis.old table.now values.now r × (r.fresh < q) }
    ensures { outcome_of result equations.now basis.new table.now
        ≡ finish_of p q most (work_of equations.now basis.old table.now r) }
{
    let n = r.rows;
    let f = r.fresh;
    if !packing::most_value_small(values, n) {
        return engine_beside::refused(Refusal::ComponentLimit, r);
    }
    let count = packing::count_not_below(values, n);
    if most < count {
        return engine_beside::refused(Refusal::TablesFull, r);
    }
    packing::keep_filled(basis, table, values, n, q, f);
    rests(p, q, r, count)
}

// The record between two stages, once the equation under way is done.
fn rests(p: usize, q: usize, r: Record, count: usize) -> Outcome
    requires { Ends p r }
    ensures { RestsLeft p q r count result }
{
    let e = r.equation;
    let bit: u32 = 1 << e;
    let done = r.done + bit;
    let steps = r.steps.0 + 1;
    let answer = answer_for(p, done);
    let run = Record {
        done,
        equation: p,
        fresh: q,
        count: Solutions(count),
        rows: 0,
        taken: 0,
        degree: 0,
        upper: 0,
        lower: 0,
        steps: Steps(steps),
        cap: r.cap,
    };
    Outcome { answer, run }
}

// What a call answers that leaves no stage under way.
pub fn answer_for(p: usize, done: u32) -> Answer
    requires { p ≤ 32 }
    ensures { answer_of result ≡ cond (eqb done (2 ^ p - 1)) complete paused }
{
    let past: u64 = 1 << p;
    if done as u64 == past - 1 {
        return Answer::Complete;
    }
    Answer::Paused
}

// What a call answers for each run, and the steps that the runs took.
ghost use Rattle.std.specs.Prelude.{◌≡◌, ◌+◌, ◌-◌, ◌≤◌, length, get_or};
ghost use Rattle.definitions.specs.Calls.{resume};
ghost use Rattle.calls.specs.Paper.{answer_of};
ghost use Rattle.dispatch_spec.specs.Dispatch.{or_idle};
ghost use Rattle.dispatch.specs.Form.{input_for, own_state, last_of, no_record, no_progress, no_outcome, unserved_of, kept_of};
ghost use Rattle.dispatch.specs.Filling.{Filled};
ghost use Rattle.dispatch.specs.Turning.{Ready};
ghost use Rattle.dispatch.specs.Finish.{Rising, Finishing};
ghost use Rattle.dispatch.specs.Idle.{rest_of, OutcomeFor};

use crate::turn;
use crate::types::{Progress, Share};
use calls::{Answer, Outcome, Record, Steps};

// What a run answers that its checks let go on, to a budget of 0.
fn rest(height: usize) -> Answer
    ensures { answer_of result ≡ rest_of height }
{
    if height == 0 {
        return Answer::Complete;
    }
    Answer::Paused
}

// What a run answers to a budget of 0.
fn idle(share: Share, coefs: &[i32], stack: &[u32], list: &[u32], r: Record) -> Answer
    requires size_in_bounds { share.stack.start + share.stack.size ≤ length stack.now }
    requires size_in_bounds_2 { share.list.start + share.list.size ≤ length list.now }
    ensures { answer_of result
        ≡ (resume 0 (input_for share coefs.now) (own_state share.stack share.list stack.now list.now r)).answer }
{
    let c = turn::inside(share.coefs, coefs.len());
    let a = share.stack;
    let b = share.list;
    let c_start = c.start;
    let c_end = c.start + c.size;
    let a_start = a.start;
    let a_end = a.start + a.size;
    let b_start = b.start;
    let b_end = b.start + b.size;
    match checks::check_resume(
        share.p,
        share.q,
        &coefs[c_start..c_end],
        &stack[a_start..a_end],
        &list[b_start..b_end],
        r,
        calls::COMPONENT_LIMIT,
    ) {
        Err(why) => Answer::Refused(why),
        Ok(()) => rest(r.height),
    }
}

// What a run answers: to its last turn, or to a budget of 0 where it had none.
fn answer(share: Share, coefs: &[i32], stack: &[u32], list: &[u32], p: Progress) -> Answer
    requires size_in_bounds { share.stack.start + share.stack.size ≤ length stack.now }
    requires size_in_bounds_2 { share.list.start + share.list.size ≤ length list.now }
    ensures { answer_of result
        ≡ or_idle (last_of p.last) (input_for share coefs.now)
        (own_state share.stack share.list stack.now list.now p.run) }
{
    match p.last {
        Some(a) => a,
        None => idle(share, coefs, stack, list, p.run),
    }
}

// What is answered for a run, with its record.
fn outcome(share: Share, coefs: &[i32], stack: &[u32], list: &[u32], p: Progress) -> Outcome
    requires size_in_bounds { share.stack.start + share.stack.size ≤ length stack.now }
    requires size_in_bounds_2 { share.list.start + share.list.size ≤ length list.now }
    ensures { OutcomeFor p (input_for share coefs.now)
        (own_state share.stack share.list stack.now list.now p.run) result }
{
    Outcome {
        answer: answer(share, coefs, stack, list, p),
        run: p.run,
    }
}

// The steps between two records of a run.
fn taken(before: Record, after: Record) -> u64
    requires { before.steps.0 ≤ after.steps.0 }
    ensures { result ≡ after.steps.0 - before.steps.0 }
{
    after.steps.0 - before.steps.0
}

// The runs' records before a call, with no turn yet.
pub fn unserved(records: [Record; 8]) -> [Progress; 8]
    ensures { Filled 8 (λ i. unserved_of (get_or records i no_record)) no_progress result 8 }
{
    records.map(|run| Progress { run, last: None })
}

// The runs' records as they are, where nothing is answered.
pub fn kept(records: [Record; 8]) -> [Outcome; 8]
    ensures { Filled 8 (λ i. kept_of (get_or records i no_record)) no_outcome result 8 }
{
    records.map(|run| Outcome {
        answer: Answer::Started,
        run,
    })
}

// What is answered for the runs, and the steps that they took.
#[derive(Clone, Copy)]
pub struct Finished {
    pub outcomes: [Outcome; 8],
    pub steps: Steps,
}

pub fn finish(
    count: usize,
    shares: [Share; 8],
    coefs: &[i32],
    stack: &[u32],
    list: &[u32],
    records: [Record; 8],
    progress: [Progress; 8],
) -> Finished
    requires ready { Ready count shares (length stack.now) (length list.now) }
    requires rising { Rising count records progress }
    ensures { Finishing count shares coefs.now stack.now list.now records progress result.outcomes result.steps.0 count }
{
    let mut outcomes = kept(records);
    let mut steps = 0;
    for i in 0..count {
        let o = outcome(shares[i], coefs, stack, list, progress[i]);
        steps += taken(records[i], o.run);
        outcomes[i] = o;
    }
    Finished {
        outcomes,
        steps: Steps(steps),
    }
}

// Up to eight plain runs at a time (document 02, job 14): a round robin dispatcher.
#![tactic(auto)]

ghost use Rattle.dispatch_spec.specs.Dispatch as form;
ghost use Rattle.dispatch.specs.Form.{schedule_for};
ghost use Rattle.dispatch.specs.Entry.{handed, Refused, Returns};

use calls::{Record, Steps};
use types::{Dispatched, Fault, Share};

mod check; // check.rt: refusals 27 and 28
mod results; // results.rt: what a call answers for each run
mod round; // round.rt: whose turn it is
mod turn; // turn.rt: one turn of one run
mod turns; // turns.rt: the turns of a call
pub mod types; // types.rt: what a caller hands over and gets back

// A call of the dispatcher: as many turns as it asks for.
pub fn dispatch(
    count: usize,
    shares: [Share; 8],
    coefs: &[i32],
    stack: &mut [u32],
    list: &mut [u32],
    records: [Record; 8],
    last: usize,
    quantum: u64,
    turns: u64,
) -> Dispatched
    ensures { Returns
        (form.dispatch turns (schedule_for count shares coefs.now quantum) (handed stack.old list.old records last)) result
        stack.new list.new }
{
    match check::check(count, shares, quantum, last, stack.len(), list.len()) {
        Err(why) => refused(why, records, last),
        Ok(()) => {
            let before = results::unserved(records);
            let s = turns::serve(
                count, shares, coefs, stack, list, before, last, quantum, turns,
            );
            let progress = s.progress;
            let f = results::finish(count, shares, coefs, stack, list, records, progress);
            let outcomes = f.outcomes;
            Dispatched {
                verdict: Ok(()),
                outcomes,
                last: s.last,
                steps: f.steps,
            }
        }
    }
}

// What a call returns that is refused as a whole.
fn refused(why: Fault, records: [Record; 8], last: usize) -> Dispatched
    ensures { Refused why records last result }
{
    let outcomes = results::kept(records);
    Dispatched {
        verdict: Err(why),
        outcomes,
        last,
        steps: Steps(0),
    }
}

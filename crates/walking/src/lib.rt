// The walk of a continuing call that was not refused, of any kind.
#![tactic(auto)]

ghost use Rattle.std.specs.Prelude.{◌≡◌};
ghost use Rattle.definitions.specs.Answers.{Check as Checked};
ghost use Rattle.definitions.specs.Calls.{machine_of};
ghost use Rattle.definitions.specs.Machine as paper;
ghost use Rattle.laws.specs.RefusalLaws.{Valid};
ghost use Rattle.calls.specs.Paper.{system_with, state_with, outcome_with};
ghost use Rattle.definitions.specs.Tables.{State};
ghost use Rattle.candidates.specs.Kinds.{Bounds, kind_by};

use calls::{Answer, Outcome, Record, Refusal};
use candidates::Kind;
use step::Stepped;

// At most `budget` steps of a walk of a kind, with components up to the limit.
pub fn walk_system(
    kind: Kind,
    p: usize,
    q: usize,
    coefs: &[i32],
    stack: &mut [u32],
    list: &mut [u32],
    second: &mut [u32],
    r: Record,
    budget: u64,
    limit: u32,
) -> Outcome
    requires { Valid (system_with (kind_by kind) p q coefs.now limit) (state_with stack.old list.old second.old r) × Bounds kind q }
    ensures { (checks : State → Checked) → outcome_with result stack.new list.new second.new ≡
        paper.walk budget (machine_of checks (system_with (kind_by kind.entry) p q coefs.now limit))
        (state_with stack.old list.old second.old r) }
{
    let first = r.steps.0;
    let stop = first.saturating_add(budget).min(calls::STEP_LIMIT);
    let mut height = r.height;
    let mut found = r.found.0;
    let mut steps = first;
    let mut other = r.found2.0;
    let mut deepest = r.deepest;
    let mut gram = [0i64; 256];
    products::write_gram(p, q, coefs, &mut gram);
    let mut inner = [0i64; 256];
    let mut sums = [0u64; 16];
    products::write_products(q, &gram, stack, height, &mut inner, &mut sums);
    let mut top = [0u32; 16];
    // A while, as it goes on until the stack is empty or a call stops it, and the height rises and falls.
    while 0 < height {
        if steps == stop {
            if steps - first == budget {
                return calls::left(Answer::Paused, r, height, found, steps, other, deepest);
            }
            let late = Answer::Refused(Refusal::StepLimit);
            return calls::left(late, r, height, found, steps, other, deepest);
        }
        let next = deepest.max(sums[height - 1]);
        let taken = match step::take(
            kind, q, &gram, stack, list, second, &mut inner, &mut sums, &mut top, height, found,
            other, limit,
        ) {
            Ok(taken) => taken,
            Err(why) => {
                let refused = Answer::Refused(why);
                return calls::left(refused, r, height, found, steps, other, deepest);
            }
        };
        match taken {
            Stepped::Listed => {
                height -= 1;
                found += 1;
            }
            Stepped::ListedSecond => {
                height -= 1;
                other += 1;
            }
            Stepped::Grown(h) => height = h,
        }
        deepest = next;
        steps += 1;
    }
    calls::left(Answer::Complete, r, height, found, steps, other, deepest)
}

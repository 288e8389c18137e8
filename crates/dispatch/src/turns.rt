// The turns of a call.
ghost use Rattle.std.specs.Prelude.{◌≡◌, length};
ghost use Rattle.dispatch_spec.specs.Dispatch.{after_turns};
ghost use Rattle.dispatch.specs.Form.{schedule_for, round_for};
ghost use Rattle.dispatch.specs.Turning.{Ready};

use crate::types::{Progress, Share};
use crate::{round, turn};

// How far the runs have come, and the number of the run served last.
#[derive(Clone, Copy)]
pub struct Served {
    pub progress: [Progress; 8],
    pub last: usize,
}

// As many turns as are asked for, while a run is in the round.
pub fn serve(
    count: usize,
    shares: [Share; 8],
    coefs: &[i32],
    stack: &mut [u32],
    list: &mut [u32],
    progress: [Progress; 8],
    last: usize,
    quantum: u64,
    turns: u64,
) -> Served
    requires { Ready count shares (length stack.old) (length list.old) }
    ensures { round_for stack.new list.new result.progress result.last
        ≡ after_turns turns (schedule_for count shares coefs.now quantum) (round_for stack.old list.old progress last) }
{
    let mut all = progress;
    let mut number = last;
    for _turn in 0..turns {
        let Some(i) = round::next_after(count, number, all) else {
            return Served {
                progress: all,
                last: number,
            };
        };
        let o = turn::serve_run(shares[i], coefs, stack, list, all[i].run, quantum);
        all[i] = Progress {
            run: o.run,
            last: Some(o.answer),
        };
        number = i + 1;
    }
    Served {
        progress: all,
        last: number,
    }
}

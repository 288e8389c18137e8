// The loop over the turns of a stage.
ghost use Rattle.std.specs.Prelude.{◌≡◌};
ghost use Rattle.engine_stage.specs.Running.{RunLeft, ran_of};
ghost use Rattle.engine_stage.specs.Standing.{Ready, lent_of, sides_of};

use crate::turns;
use crate::turns::{Frame, Next, Stop};

// Where a stage stands after a loop over turns, and why it stopped there; nothing did where the budget is used up.
#[derive(Clone, Copy)]
pub struct Ran {
    pub stopped: Option<Stop>,
    pub next: Next,
}

// At most `budget` turns.
pub fn run(
    f: Frame,
    coefs: &[i32],
    basis: &[u32],
    sizes: &[u32],
    table: &mut [u32],
    values: &mut [i64],
    words: &mut [u64],
    degrees: &mut [u32],
    marks: &mut [u64],
    mothers: &mut [u32],
    s: Next,
    budget: u64,
) -> Ran
    requires { Ready f (lent_of coefs.now basis.now sizes.now) table.old
        (sides_of values.old words.old degrees.old marks.old mothers.old) s }
    ensures { RunLeft f (lent_of coefs.now basis.now sizes.now) budget table.old
        (sides_of values.old words.old degrees.old marks.old mothers.old) s result table.new
        (sides_of values.new words.new degrees.new marks.new mothers.new) }
{
    let mut held = [0u64; 768];
    let mut places = [0u32; 66560];
    let mut at = s;
    for _ in 0..budget {
        match turns::turn(
            f,
            coefs,
            basis,
            sizes,
            table,
            values,
            words,
            degrees,
            marks,
            mothers,
            &mut held,
            &mut places,
            at,
        ) {
            Ok(next) => at = next,
            Err(stop) => return ended(Some(stop), at),
        }
    }
    ended(None, at)
}

fn ended(stopped: Option<Stop>, next: Next) -> Ran
    ensures { result ≡ ran_of stopped next }
{
    Ran { stopped, next }
}

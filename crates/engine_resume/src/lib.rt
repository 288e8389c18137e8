// The engine's continuing call. It takes the record by value and returns what it leaves.
#![tactic(auto)]

ghost use Rattle.engine_stage.specs.Standing.{sides_of};
ghost use Rattle.engine_resume.specs.Continuing.{ResumeLeft};

use engine_beside::{Outcome, Record};
use engine_checks::{room as capacity, standing};

mod resuming; // resuming.rt: the continuing call after its checks

// The continuing call: at most `budget` turns of the stage under way, and its end where they come to it.
pub fn resume(
    p: usize,
    q: usize,
    equations: &[i32],
    basis: &mut [u32],
    sizes: &mut [u32],
    table: &mut [u32],
    values: &mut [i64],
    words: &mut [u64],
    degrees: &mut [u32],
    marks: &mut [u64],
    mothers: &mut [u32],
    r: Record,
    budget: u64,
) -> Outcome
    ensures { ResumeLeft p q budget equations.now basis.old sizes.old table.old
        (sides_of values.old words.old degrees.old marks.old mothers.old) r result
        basis.new sizes.new table.new
        (sides_of values.new words.new degrees.new marks.new mothers.new) }
{
    let most = capacity::basis_room(q, basis.len(), sizes.len());
    let room = capacity::stage_room(
        q,
        table.len(),
        values.len(),
        words.len(),
        degrees.len(),
        marks.len(),
        mothers.len(),
    );
    match standing::check_standing(p, q, equations, basis, table, most, room, r) {
        Err(why) => engine_beside::refused(why, r),
        Ok(()) => {
            if p <= r.equation {
                return resuming::rested(p, r);
            }
            resuming::go_on(
                p, q, most, room, equations, basis, sizes, table, values, words, degrees, marks,
                mothers, r, budget,
            )
        }
    }
}

// The walk of a continuing call of the second of two desks that was not refused.
#![tactic(auto)]

ghost use Rattle.std.specs.Prelude.{◌≡◌, ◌+◌, ◌*◌, ◌-◌, ◌/◌, ◌≤◌, ◌<◌, length};
ghost use Rattle.definitions.specs.Machine as paper;
ghost use Rattle.table_rows.specs.Rows.{Holds};
ghost use Rattle.table_rows.specs.Small.{SmallRow};
ghost use Rattle.desk_spec.specs.Desks.{desk_machine, desk_of};
ghost use Rattle.desk_spec.specs.Valid.{DeskValid};
ghost use Rattle.calls.specs.Paper.{outcome_of, state_of};
ghost use Rattle.desk_rows.specs.Images.{ImageWritten, SmallMap, image_at};
ghost use Rattle.desk_walk.specs.Taking.{Standing, Taken, state_at};

use crate::step::DeskStepped;
use calls::{Answer, Outcome, Record, Refusal};
use desk_rows::{images, marks, rows};

pub mod step; // step.rt: one step

// At most `budget` steps.
pub fn walk_desk(
    p: usize,
    q: usize,
    coefs: &[i32],
    generators: &[u32],
    stack: &mut [u32],
    list: &mut [u32],
    r: Record,
    budget: u64,
) -> Outcome
    requires { DeskValid (desk_of p q coefs.now generators.now) (state_of stack.old list.old r) }
    ensures { outcome_of result stack.new list.new
        ≡ paper.walk budget (desk_machine (desk_of p q coefs.now generators.now)) (state_of stack.old list.old r) }
{
    let mut height = r.height;
    let mut found = r.found.0;
    let mut steps = r.steps.0;
    let mut deepest = r.deepest;
    let second = r.found2.0;
    let n = generators.len() / q;
    let mut images = [0i64; 520];
    images::write_all(p, q, coefs, generators, n, &mut images);
    let mut top = [0u32; 16];
    let mut child = [0u32; 16];
    let mut left = budget;
    // A while, as it goes on until the stack is empty or a call stops it, and the height rises and falls.
    while 0 < height {
        if left == 0 {
            return calls::left(Answer::Paused, r, height, found, steps, second, deepest);
        }
        if steps == calls::STEP_LIMIT {
            let answer = Answer::Refused(Refusal::StepLimit);
            return calls::left(answer, r, height, found, steps, second, deepest);
        }
        look(
            p,
            q,
            coefs,
            stack,
            (height - 1) * (q + 2),
            &mut images,
            &mut top,
        );
        let stepped = match take(
            p, q, coefs, generators, n, &images, stack, list, &top, &mut child, r, height, found,
            steps, deepest,
        ) {
            Ok(stepped) => stepped,
            Err(why) => {
                let answer = Answer::Refused(why);
                return calls::left(answer, r, height, found, steps, second, deepest);
            }
        };
        match stepped {
            DeskStepped::Listed(k) => {
                height -= 1;
                found = k;
            }
            DeskStepped::Grown(h) => height = h,
        }
        deepest = deepest.max(rows::sum(&top, q));
        steps += 1;
        left -= 1;
    }
    let kept = table_rows::sweep::sweep(list, found, q);
    calls::left(Answer::Complete, r, height, kept, steps, second, deepest)
}

// Reads the tuple that stands in the stack table from place `base`, and writes its image into row 64.
fn look(
    p: usize,
    q: usize,
    coefs: &[i32],
    stack: &[u32],
    base: usize,
    images: &mut [i64; 520],
    top: &mut [u32],
)
    requires { SmallMap p q coefs.now × SmallRow q stack.now base × (length images.old ≡ 520) × (q ≤ length top.old) }
    ensures holds { Holds q top.new stack.now base }
    ensures image_written { ImageWritten 64 p (image_at q coefs.now stack.now base) images.old images.new }
{
    table_rows::rows::read(stack, base, q, top);
    images::write(p, q, coefs, stack, base, 64, images);
}

// One step of a run from a height above 0. `top` holds the tuple of the top, and row 64 of the images its image.
fn take(
    p: usize,
    q: usize,
    coefs: &[i32],
    generators: &[u32],
    n: usize,
    images: &[i64; 520],
    stack: &mut [u32],
    list: &mut [u32],
    top: &[u32],
    child: &mut [u32],
    r: Record,
    height: usize,
    found: usize,
    steps: u64,
    deepest: u64,
) -> Result<DeskStepped, Refusal>
    requires standing { Standing p q coefs.now generators.now images.now top.now (state_at r stack.old list.old height found steps deepest) }
    requires n_value { (n ≡ length generators.now / q) × (q ≤ length child.old) }
    ensures { Taken (desk_of p q coefs.now generators.now)
        (state_at r stack.old list.old height found steps deepest)
        stack.new list.new result }
{
    let level = height - 1;
    if images::vanishes(p, images, 64) {
        let listed = step::enlist(list, found, q, top)?;
        return Ok(DeskStepped::Listed(listed));
    }
    let base = level * (q + 2);
    let marks = marks::join(stack[base + q], stack[base + (q + 1)]);
    let made = step::admitted_generators(
        p, q, generators, n, images, list, found, top, child, marks,
    )?;
    let grown = step::push(q, generators, n, stack, level, top, child, marks, made);
    Ok(DeskStepped::Grown(grown))
}

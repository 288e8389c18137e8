// The second walk's calls: the start, and the continuing call. Each takes the run record by value and returns what it leaves.
#![tactic(auto)]

ghost use Rattle.std.specs.Prelude.{◌≡◌, ◌+◌, ◌*◌, ◌≤◌, length};
ghost use Rattle.desk_spec.specs.Desks.{desk_begin, desk_of, desk_resume};
ghost use Rattle.calls.specs.Paper.{outcome_of, state_of};
ghost use Rattle.desk.specs.Starting.{start_to};

use calls::{Outcome, Record, RunKind};
use desk_rows::rows;

// The start: writes a row for each generator, takes no step.
pub fn start(
    p: usize,
    q: usize,
    coefs: &[i32],
    generators: &[u32],
    stack: &mut [u32],
    list: &[u32],
    r: Record,
) -> Outcome
    ensures { outcome_of result stack.new list.now
        ≡ desk_begin (desk_of p q coefs.now generators.now) (state_of stack.old list.now r) }
{
    match desk_checks::check_start(p, q, coefs, generators, stack, list, r) {
        Err(why) => calls::refused(why, r),
        Ok(()) => {
            let n = generators.len() / q;
            write_start(q, generators, n, stack);
            calls::begun(RunKind::Desks, n)
        }
    }
}

// The continuing call: at most `budget` steps.
pub fn resume(
    p: usize,
    q: usize,
    coefs: &[i32],
    generators: &[u32],
    stack: &mut [u32],
    list: &mut [u32],
    r: Record,
    budget: u64,
) -> Outcome
    ensures { outcome_of result stack.new list.new
        ≡ desk_resume budget (desk_of p q coefs.now generators.now) (state_of stack.old list.old r) }
{
    match desk_checks::check_resume(p, q, coefs, generators, stack, list, r) {
        Err(why) => calls::refused(why, r),
        Ok(()) => desk_walk::walk_desk(p, q, coefs, generators, stack, list, r, budget),
    }
}

// Row k holds generator k, and the marks of those before it.
fn write_start(q: usize, generators: &[u32], n: usize, stack: &mut [u32])
    requires { (q ≤ 16) × (n ≤ 64) × (n * q ≤ length generators.now) × (n * (q + 2) ≤ length stack.old) }
    ensures { stack.new ≡ start_to n q generators.now stack.old }
{
    let mut t = [0u32; 16];
    for k in 0..n {
        table_rows::rows::read(generators, k * q, q, &mut t);
        let before: u64 = (1 << k) - 1;
        rows::write(stack, k, q, &t, before);
    }
}

// Generators, run record and tables in order: refusal 6.
ghost use Rattle.std.specs.Prelude.{◌≡◌, [], ◌+◌, ◌*◌, ◌/◌, ◌≤◌, ◌<◌, leb, length, get_or};
ghost use Rattle.linear.specs.Tests.{all_to};
ghost use Rattle.definitions.specs.System.{most_component};
ghost use Rattle.desk_spec.specs.Desks.{desk_in_order, desk_of, desk_row_in_order};
ghost use Rattle.calls.specs.Paper.{state_of};
ghost use Rattle.desk_checks.specs.Shape.{RowsFit};

use calls::{Record, RunKind};
use desk_rows::marks;
use table_rows::rows;

// Whether no number is above 1,000,000.
pub fn small(table: &[u32]) -> bool
    ensures { result ≡ all_to (length table.now) (λ i. leb (get_or table.now i 0) most_component) }
{
    rows::small_at(table, 0, table.len(), calls::COMPONENT_LIMIT)
}

// Whether record and tables are in order, which depends on q and the number of generators alone.
pub fn in_order(q: usize, generators: &[u32], stack: &[u32], list: &[u32], r: Record) -> bool
    requires { RowsFit q (length generators.now) (length stack.now) }
    ensures { result ≡ desk_in_order (desk_of 0 q [] generators.now) (state_of stack.now list.now r) }
{
    // record_order::in_order asks the first five of other runs: a function of them would take as many parameters as it makes tests.
    calls::same_run(r.kind, RunKind::Desks)
        && r.height <= generators.len() / q
        && r.found.0 <= list.len() / q
        && r.steps.0 <= calls::STEP_LIMIT
        && r.deepest <= calls::DEEPEST_LIMIT
        && rows_in_order(q, generators, stack, r.height)
}

// Whether the first `height` rows are in order.
fn rows_in_order(q: usize, generators: &[u32], stack: &[u32], height: usize) -> bool
    requires { (0 < q) × (q ≤ 16) × (height * (q + 2) ≤ length stack.now) }
    ensures { result ≡ all_to height (desk_row_in_order (desk_of 0 q [] generators.now) stack.now) }
{
    (0..height).all(|k| row_in_order(q, generators, stack, k))
}

// Whether row k is in order: components, marks within the generators, and k marks.
fn row_in_order(q: usize, generators: &[u32], stack: &[u32], k: usize) -> bool
    requires { (0 < q) × (q ≤ 16) × (k * (q + 2) + (q + 2) ≤ length stack.now) }
    ensures { result ≡ desk_row_in_order (desk_of 0 q [] generators.now) stack.now k }
{
    let base = k * (q + 2);
    let marks = marks::join(stack[base + q], stack[base + (q + 1)]);
    rows::small_at(stack, base, q, calls::COMPONENT_LIMIT)
        && marks::in_order(marks, generators.len() / q, k)
}

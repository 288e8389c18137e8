// Rows of the stack table.
ghost use Rattle.std.specs.Prelude.{◌≡◌, ◌+◌, ◌*◌, ◌≤◌, ltb, length};
ghost use Rattle.linear.specs.Tests.{any_to};
ghost use Rattle.linear.specs.Tuples.{total};
ghost use Rattle.definitions.specs.System.{most_component};
ghost use Rattle.definitions.specs.Tables.{write_to};
ghost use Rattle.table_rows.specs.Rows.{tuple};
ghost use Rattle.table_rows.specs.Small.{SmallRow};
ghost use Rattle.desk_spec.specs.Desks.{desk_row};
ghost use Rattle.desk_rows.specs.Rows.{Raised, SmallTuple};

use crate::marks;
use table_rows::rows;

// Writes row k: the first q numbers of `t`, and the marks.
pub fn write(stack: &mut [u32], k: usize, q: usize, t: &[u32], marks: u64)
    requires { (q ≤ length t.now) × (q ≤ 16) × (k * (q + 2) + (q + 2) ≤ length stack.old) }
    ensures { stack.new ≡ write_to (q + 2) stack.old (k * (q + 2)) (desk_row q (tuple t.now) marks) }
{
    let base = k * (q + 2);
    rows::write(stack, base, q, t);
    stack[base + q] = marks::low(marks);
    stack[base + (q + 1)] = marks::high(marks);
}

// Writes into `z` the sum of `t` and the tuple that stands in a table from place `base`.
pub fn add(t: &[u32], table: &[u32], base: usize, q: usize, z: &mut [u32])
    requires { (q ≤ length z.old) × SmallTuple q t.now × SmallRow q table.now base }
    ensures { Raised q z.new t.now table.now base }
{
    for j in 0..q {
        z[j] = t[j] + table[base + j];
    }
}

// Whether one of the first q numbers is above the limit of components.
pub fn is_large(t: &[u32], q: usize) -> bool
    requires { q ≤ length t.now }
    ensures { result ≡ any_to q (λ i. ltb most_component (tuple t.now i)) }
{
    !table_rows::rows::small_at(t, 0, q, calls::COMPONENT_LIMIT)
}

// The sum of the first q numbers.
pub fn sum(t: &[u32], q: usize) -> u64
    requires { (q ≤ 16) × SmallTuple q t.now }
    ensures { result ≡ total (tuple t.now) q }
{
    let mut sum: u64 = 0;
    for j in 0..q {
        sum += t[j] as u64;
    }
    sum
}

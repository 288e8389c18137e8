// Rows of the stack table.
ghost use Rattle.std.specs.Prelude.{◌≡◌, ◌+◌, ◌*◌, ◌^◌, ◌≤◌, ◌<◌, length};
ghost use Rattle.linear.specs.Tuples.{raise};
ghost use Rattle.definitions.specs.Tables.{write_row};
ghost use Rattle.table_rows.specs.Rows.{tuple};

use table_rows::rows;

// Writes row `k` of the stack: `t` with component `i` raised by one, and the marks.
pub fn write_child(stack: &mut [u32], k: usize, q: usize, t: &[u32], i: usize, marks: u32)
    requires { (i < q) × (q ≤ length t.now) × (k * (q + 1) + q < length stack.old) × (tuple t.now i + 1 < 2 ^ 32) }
    ensures { stack.new ≡ write_row q stack.old k (raise (tuple t.now) i) marks }
{
    let base = k * (q + 1);
    rows::write(stack, base, q, t);
    stack[base + i] = t[i] + 1;
    stack[base + q] = marks;
}

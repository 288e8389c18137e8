// The children of the row that a step takes off: their rows on the stack, and beside them their inner products and sums of components.
ghost use Rattle.std.specs.Prelude.{◌≡◌, ◌+◌, ◌^◌, ◌≤◌, ◌<◌, length};
ghost use Rattle.std.specs.Int.Count.{count_trailing_zeros};
ghost use Rattle.linear.specs.Tests.{count_to};
ghost use Rattle.definitions.specs.Tables.{at, frozen};
ghost use Rattle.definitions.specs.Step.{write_children};
ghost use Rattle.products.specs.Products.{Combined};
ghost use Rattle.products.specs.Totals.{Totals};
ghost use Rattle.step.specs.Pushed.{Parent, Others};

mod rows; // rows.rt: rows of the stack table

// Writes the children's rows, products and sums from `level` up, and returns the height that they reach. The first child takes its parent's place, so
// it comes last, when no other needs the parent. What `top` holds is of no meaning.
pub fn push(
    q: usize,
    gram: &[i64; 256],
    stack: &mut [u32],
    inner: &mut [i64; 256],
    sums: &mut [u64; 16],
    level: usize,
    top: &mut [u32],
    marks: u32,
    made: u32,
) -> usize
    requires parent { Parent q gram.now stack.old inner.old sums.old level (at stack.old (q + 1) level) marks × (q ≤ length top.old) }
    requires made_bound { (level + count_to q (frozen made) ≤ q) × (made < 2 ^ q) }
    ensures value { result ≡ level + count_to q (frozen made) }
    ensures stack_after { stack.new ≡ write_children q q stack.old level (at stack.old (q + 1) level) marks (frozen made) }
    ensures combined { Combined q gram.now stack.new result inner.new }
    ensures totals { Totals q stack.new result sums.new }
{
    if made == 0 {
        return level;
    }
    let first = u32::trailing_zeros(made) as usize;
    let height = push_others(q, gram, stack, inner, sums, level, top, marks, made, first);
    sums[level] += 1;
    stack[level * (q + 1) + first] += 1;
    products::write_child(inner, level, level, q, gram, first);
    height
}

// Writes those of all children but the first, from a copy of the parent's tuple.
fn push_others(
    q: usize,
    gram: &[i64; 256],
    stack: &mut [u32],
    inner: &mut [i64; 256],
    sums: &mut [u64; 16],
    level: usize,
    top: &mut [u32],
    marks: u32,
    made: u32,
    first: usize,
) -> usize
    requires parent { Parent q gram.now stack.old inner.old sums.old level (at stack.old (q + 1) level) marks × (q ≤ length top.old) }
    requires made_bound { (level + count_to q (frozen made) ≤ q) × (made < 2 ^ q) × (0 < made) × (first ≡ count_trailing_zeros 32 made) }
    ensures { Others q stack.old level (at stack.old (q + 1) level) marks (frozen made) first gram.now
        stack.new inner.new sums.new result }
{
    let bit: u32 = 1 << first;
    let mut rest = made - bit;
    let mut h = level + 1;
    if rest == 0 {
        return h;
    }
    table_rows::rows::read(stack, level * (q + 1), q, top);
    let mut frozen = marks + bit;
    let sum = sums[level];
    // A while, as it takes the lowest bit of a mask each time and counts nothing.
    while rest != 0 {
        let i = u32::trailing_zeros(rest) as usize;
        let bit: u32 = 1 << i;
        rest -= bit;
        rows::write_child(stack, h, q, top, i, frozen);
        products::write_child(inner, level, h, q, gram, i);
        sums[h] = sum + 1;
        frozen += bit;
        h += 1;
    }
    h
}

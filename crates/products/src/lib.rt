// The inner products of the rows on the stack with every column. Raising an unknown adds a row of the Gram matrix to them, so they are computed
// once for the rows that a call finds, and kept beside the stack: 16 numbers a level.
#![tactic(auto)]

ghost use Rattle.std.specs.Prelude.{◌≡◌, not, ◌&&◌, ◌+◌, ◌*◌, ◌≤◌, ◌<◌, pos, ◌+ℤ◌, ◌*ℤ◌, length};
ghost use Rattle.std.specs.Int.Signed.{lt_z};
ghost use Rattle.std.specs.Int.{w64};
ghost use Rattle.std.proofs.Common.{SFits};
ghost use Rattle.linear.specs.Tests.{number, all_to};
ghost use Rattle.linear.specs.Gram.{gram};
ghost use Rattle.linear.specs.Tuples.{total};
ghost use Rattle.definitions.specs.System.{is_zero};
ghost use Rattle.definitions.specs.Tables.{at, frozen};
ghost use Rattle.definitions.specs.Step.{marks_to};
ghost use Rattle.products.specs.Marks.{Marked};
ghost use Rattle.products.specs.Products.{
  given,
  SmallCoefs,
  SmallRow,
  SmallRows,
  entry,
  Zeros,
  Written,
  Filled,
  Gram,
  SmallGram,
  partial,
  Summed,
  combine,
  Combined,
  raised,
  ChildRoom,
};
ghost use Rattle.products.specs.Totals.{Totals};

// Writes the Gram matrix into a table of zeros: the inner product of columns i and j at i * 16 + j, by what each equation adds to it.
pub fn write_gram(p: usize, q: usize, coefs: &[i32], g: &mut [i64; 256])
    requires { SmallCoefs p q coefs.now × (length g.old ≡ 256) × Zeros g.old 0 }
    ensures { Gram p q coefs.now g.new }
{
    for e in 0..p {
        add_equation(p, q, coefs, e, g);
    }
}

// Adds what equation e adds.
fn add_equation(p: usize, q: usize, coefs: &[i32], e: usize, g: &mut [i64; 256])
    requires { SmallCoefs p q coefs.now × (length g.old ≡ 256) × (e < p) × Gram e q coefs.now g.old }
    ensures { Gram (e + 1) q coefs.now g.new × (length g.new ≡ 256) }
{
    for i in 0..q {
        add_coefficient(p, q, coefs, e, i, g);
    }
}

// To row i.
fn add_coefficient(p: usize, q: usize, coefs: &[i32], e: usize, i: usize, g: &mut [i64; 256])
    requires small_coefs { SmallCoefs p q coefs.now × (length g.old ≡ 256) × (e < p) × (i < q) }
    requires filled { Filled q (gram e (given q coefs.now) i) i g.old }
    ensures { Written i q (gram (e + 1) (given q coefs.now) i) g.old g.new }
{
    let x = coefs[e * q + i];
    for j in 0..q {
        g[i * 16 + j] = sum_and(g[i * 16 + j], wide(x), wide(coefs[e * q + j]));
    }
}

// What a sum of products takes, as functions with contracts in ℤ: their callers' loops hold bits.
pub fn sum_and(sum: i64, x: i64, y: i64) -> i64
    requires sfits { SFits w64 (x *ℤ y) }
    requires sfits_2 { SFits w64 (sum +ℤ x *ℤ y) }
    ensures { result ≡ sum +ℤ x *ℤ y }
{
    sum + x * y
}

pub fn wide(x: i32) -> i64
    ensures { result ≡ x }
{
    i64::from(x)
}

pub fn natural(x: u32) -> i64
    ensures { result ≡ pos x }
{
    i64::from(x)
}

// Writes the products of the rows on the stack, from the Gram matrix, into a table of zeros; and beside them the rows' sums of components.
pub fn write_products(
    q: usize,
    gram: &[i64; 256],
    stack: &[u32],
    height: usize,
    c: &mut [i64; 256],
    sums: &mut [u64; 16],
)
    requires small_gram { SmallGram q gram.now × (length c.old ≡ 256) × Zeros c.old 0 }
    requires small_rows { SmallRows q stack.now height × (length sums.old ≡ 16) }
    ensures combined { Combined q gram.now stack.now height c.new }
    ensures totals { Totals q stack.now height sums.new }
{
    for k in 0..height {
        sums[k] = products_row(q, gram, stack, k, c);
    }
}

// Those of row k; its sum is returned.
fn products_row(q: usize, gram: &[i64; 256], stack: &[u32], k: usize, c: &mut [i64; 256]) -> u64
    requires { SmallGram q gram.now × SmallRow q stack.now (k * (q + 1)) × (length c.old ≡ 256) × (k < 16) × Zeros c.old k }
    ensures written { Written k q (combine q gram.now (at stack.now (q + 1) k)) c.old c.new }
    ensures value { result ≡ total (at stack.now (q + 1) k) q }
{
    let mut sum: u64 = 0;
    for i in 0..q {
        sum += stack[k * (q + 1) + i] as u64;
        add_component(q, gram, stack, k, i, c);
    }
    sum
}

// Adds to the products at level k what component i of its row makes of them. Most components are 0, and make nothing.
fn add_component(q: usize, gram: &[i64; 256], stack: &[u32], k: usize, i: usize, c: &mut [i64; 256])
    requires small_gram { SmallGram q gram.now × SmallRow q stack.now (k * (q + 1)) × (length c.old ≡ 256) × (k < 16) × (i < q) }
    requires summed { Summed q gram.now (at stack.now (q + 1) k) i k c.old }
    ensures { Written k q (partial gram.now (at stack.now (q + 1) k) (i + 1)) c.old c.new }
{
    let x = stack[k * (q + 1) + i];
    if x == 0 {
        return;
    }
    for j in 0..q {
        c[k * 16 + j] = sum_and(c[k * 16 + j], natural(x), gram[i * 16 + j]);
    }
}

// Whether the products at level k are all 0: then, and only then, the row is a solution.
pub fn vanish(c: &[i64; 256], k: usize, q: usize) -> bool
    requires { (k < 16) × (q ≤ 16) }
    ensures { result ≡ all_to q (λ j. is_zero (entry c.now k j)) }
{
    (0..q).all(|j| c[k * 16 + j] == 0)
}

// The unknowns that are not frozen by `marks` and whose product at level k is below zero, as marks.
pub fn candidate_marks(c: &[i64; 256], k: usize, q: usize, marks: u32) -> u32
    requires { (k < 16) × (q ≤ 16) }
    ensures { Marked q (λ j. lt_z (entry c.now k j) (pos 0) && not (frozen marks j)) result }
{
    below_zero(c, k, q) & !marks
}

// The unknowns whose product at level k is below zero, as marks: from the last to the first, so that no mark is shifted to its place.
fn below_zero(c: &[i64; 256], k: usize, q: usize) -> u32
    requires { (k < 16) × (q ≤ 16) }
    ensures { result ≡ marks_to q (λ j. lt_z (entry c.now k j) (pos 0)) }
{
    let mut below: u32 = 0;
    for j in (0..q).rev() {
        below = below + below + sign(c[k * 16 + j]);
    }
    below
}

// 1 where a product is below zero.
fn sign(product: i64) -> u32
    ensures { result ≡ number (lt_z product (pos 0)) }
{
    u32::from(product < 0)
}

// Writes the products of a child at level k: those of its parent at level `from`, and the Gram row of the unknown that was raised. A child may
// take its parent's level.
pub fn write_child(c: &mut [i64; 256], from: usize, k: usize, q: usize, gram: &[i64; 256], i: usize)
    requires { ChildRoom q from k i c.old gram.now }
    ensures { Written k q (raised gram.now (entry c.old from) i) c.old c.new }
{
    for j in 0..q {
        c[k * 16 + j] = c[from * 16 + j] + gram[i * 16 + j];
    }
}

// Rows kept, one behind the other: what a stage leaves, and what it begins with.
ghost use Rattle.std.specs.Prelude.{Bool, true, false, ℕ, ◌≡◌, ◌+◌, ◌*◌, ◌≤◌, ◌<◌, pos, length};
ghost use Rattle.std.specs.Int.Signed.{le_z, lt_z};
ghost use Rattle.linear.specs.Differences.{up};
ghost use Rattle.linear.specs.Tests.{all_to, count_to};
ghost use Rattle.definitions.specs.System.{is_zero, most_component};
ghost use Rattle.definitions.specs.Tables.{at};
ghost use Rattle.laws.specs.Pack.{pack_to};
ghost use Rattle.laws.specs.Sweep.{swept_to};
ghost use Rattle.engine_rows.specs.Keeping.{filled_row, lacks, not_below_value, small_value, zero_value};

use crate::rows;

// Writes those of the first n rows that have value 0 into `basis`, and says how many.
pub fn keep_zeros(basis: &mut [u32], table: &[u32], values: &[i64], n: usize, q: usize) -> usize
    requires { (n * q ≤ length table.now) × (n ≤ length values.now) × (count_to n (zero_value values.now) * q ≤ length basis.old) }
    ensures { (basis.new ≡ pack_to n q basis.old 0 (zero_value values.now) (at table.now q))
        × (result ≡ count_to n (zero_value values.now)) }
{
    let mut kept = 0;
    for i in 0..n {
        if !is_zero(values[i]) {
            continue;
        }
        rows::append_row(table, i * q, basis, kept * q, q);
        kept += 1;
    }
    kept
}

// How many of the first n values are 0.
pub fn count_zeros(values: &[i64], n: usize) -> usize
    requires { n ≤ length values.now }
    ensures { result ≡ count_to n (zero_value values.now) }
{
    count_where(n, |i| is_zero(values[i]))
}

// At how many of n places a test holds.
fn count_where<F: Fn(usize) -> bool>(n: usize, test: F) -> usize
    requires { (i : ℕ) → i < n → F.pre test i }
    ensures { (f : ℕ → Bool) → ((i : ℕ) (b : Bool) → i < n → F.post test i b → b ≡ f i) → result ≡ count_to n f }
{
    let mut count = 0;
    for i in 0..n {
        if test(i) {
            count += 1;
        }
    }
    count
}

fn is_zero(x: i64) -> bool
    ensures { result ≡ is_zero x }
{
    x == 0
}

// Writes those of the first n rows that have a value not below 0 into `basis`, each with its value at place f, and says how many. Kept beside keep_zeros:
// one function for both would take the test, what is written and the room for what stays, and each call would be longer than its loop.
pub fn keep_filled(
    basis: &mut [u32],
    table: &[u32],
    values: &[i64],
    n: usize,
    q: usize,
    f: usize,
) -> usize
    requires { (n * q ≤ length table.now) × (n ≤ length values.now) × (all_to n (small_value values.now) ≡ true)
        × (count_to n (not_below_value values.now) * q ≤ length basis.old) }
    ensures { (basis.new ≡ pack_to n q basis.old 0 (not_below_value values.now)
        (filled_row f values.now (at table.now q)))
        × (result ≡ count_to n (not_below_value values.now)) }
{
    let mut kept = 0;
    for i in 0..n {
        if is_below(values[i]) {
            continue;
        }
        rows::append_filled(table, i * q, basis, kept * q, q, f, natural(values[i]));
        kept += 1;
    }
    kept
}

// How many of the first n values are not below 0.
pub fn count_not_below(values: &[i64], n: usize) -> usize
    requires { n ≤ length values.now }
    ensures { result ≡ count_to n (not_below_value values.now) }
{
    count_where(n, |i| !is_below(values[i]))
}

fn is_below(x: i64) -> bool
    ensures { result ≡ lt_z x (pos 0) }
{
    x < 0
}

// A value that is not below 0 nor above 1,000,000.
fn natural(x: i64) -> u32
    requires { (lt_z x (pos 0) ≡ false) × (le_z x (pos most_component) ≡ true) }
    ensures { result ≡ up x }
{
    x as u32
}

// Whether none of the first n values is above 1,000,000.
pub fn most_value_small(values: &[i64], n: usize) -> bool
    requires { n ≤ length values.now }
    ensures { result ≡ all_to n (small_value values.now) }
{
    (0..n).all(|i| !is_large(values[i]))
}

fn is_large(x: i64) -> bool
    ensures { result ≡ lt_z (pos most_component) x }
{
    (calls::COMPONENT_LIMIT as i64) < x
}

// Keeps those of the first m rows that have 0 at place f, in place, and says how many.
pub fn drop_fresh(basis: &mut [u32], m: usize, q: usize, f: usize) -> usize
    requires { (m * q ≤ length basis.old) × (f < q) }
    ensures { (basis.new ≡ swept_to m q basis.old (lacks f (at basis.old q)))
        × (result ≡ count_to m (lacks f (at basis.old q))) }
{
    let mut kept = 0;
    for i in 0..m {
        let base = i * q;
        if basis[base + f] != 0 {
            continue;
        }
        rows::copy(basis, base, kept * q, q);
        kept += 1;
    }
    kept
}

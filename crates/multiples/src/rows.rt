// Rows taken off a tuple, each as often as it goes.
ghost use Rattle.std.specs.Prelude.{◌≡◌, ◌+◌, ◌*◌, ◌-◌, ◌≤◌, length};
ghost use Rattle.definitions.specs.Tables.{at};
ghost use Rattle.table_rows.specs.Rows.{tuple};
ghost use Rattle.multiples_spec.specs.Parts as paper;
ghost use Rattle.multiples.specs.Taking.{Goes, Left, Less, row_at};

// Takes the first `found` rows of a list off `rest`, the last first, and writes how often each was taken.
pub fn take(list: &[u32], found: usize, q: usize, rest: &mut [u32], times: &mut [u32])
    requires { (found * q ≤ length list.now) × (q ≤ length rest.old) × (found ≤ length times.old) }
    ensures left { Left q found list.now rest.old rest.new }
    ensures times_after { times.new ≡ paper.write_times q found (at list.now q) (tuple rest.old) times.old }
{
    for i in (0..found).rev() {
        let n = often(list, i * q, q, rest);
        take_off(list, i * q, q, rest, n);
        times[i] = n;
    }
}

// How often the row that stands in the list from place `base` goes into `rest`.
fn often(list: &[u32], base: usize, q: usize, rest: &[u32]) -> u32
    requires { (base + q ≤ length list.now) × (q ≤ length rest.now) }
    ensures { result ≡ paper.often q (row_at list.now base) (tuple rest.now) }
{
    let mut n = calls::COMPONENT_LIMIT + 1;
    for j in 0..q {
        n = lower(n, list[base + j], rest[j]);
    }
    bounded(n)
}

// A row that nothing bounds is not taken.
fn bounded(n: u32) -> u32
    ensures { result ≡ paper.bounded n }
{
    if n == calls::COMPONENT_LIMIT + 1 {
        0
    } else {
        n
    }
}

// How often a goes into b, or n where that is less.
fn lower(n: u32, a: u32, b: u32) -> u32
    ensures { result ≡ paper.lower n a b }
{
    if a == 0 { n } else { n.min(b / a) }
}

// Takes the row off n times.
fn take_off(list: &[u32], base: usize, q: usize, rest: &mut [u32], n: u32)
    requires { (base + q ≤ length list.now) × (q ≤ length rest.old) × Goes q n (row_at list.now base) (tuple rest.old) }
    ensures { Less q n list.now base rest.old rest.new }
{
    for j in 0..q {
        // read first: that it fits bounds the product
        let x = rest[j];
        rest[j] = x - n * list[base + j];
    }
}

// Marks of up to 64 generators, in two numbers of a row and as one number.
ghost use Rattle.std.specs.Prelude.{◌&&◌, ◌≡◌, ◌+◌, ◌*◌, ◌^◌, ◌/◌, ◌%◌, ◌<◌, eqb, ltb};
ghost use Rattle.linear.specs.Tests.{count_to};
ghost use Rattle.definitions.specs.Tables.{frozen};
ghost use Rattle.desk_spec.specs.Desks.{word};

// The number of 64 bits that the two numbers of a row are.
pub fn join(low: u32, high: u32) -> u64
    ensures { result ≡ low + high * word }
{
    low as u64 + high as u64 * 4294967296
}

// The first of the two, with the marks of generators 1 to 32.
pub fn low(marks: u64) -> u32
    ensures { result ≡ marks % word }
{
    (marks % 4294967296) as u32
}

// The second.
pub fn high(marks: u64) -> u32
    ensures { result ≡ marks / word }
{
    (marks / 4294967296) as u32
}

// Whether generator j (from 0) is marked.
pub fn is_marked(marks: u64, j: usize) -> bool
    requires { j < 64 }
    ensures { result ≡ frozen marks j }
{
    (marks >> j) % 2 == 1
}

// Whether the marks are of the first n generators, and k of them.
pub fn in_order(marks: u64, n: usize, k: usize) -> bool
    ensures { result ≡ (ltb marks (2 ^ n) && eqb (count_to n (frozen marks)) k) }
{
    fit(marks, n) && count(marks) == k
}

// Whether no mark is beyond generator n.
fn fit(marks: u64, n: usize) -> bool
    ensures { result ≡ ltb marks (2 ^ n) }
{
    64 <= n || marks < 1 << n
}

fn count(marks: u64) -> usize
    ensures { result ≡ count_to 64 (frozen marks) }
{
    marks.count_ones() as usize
}

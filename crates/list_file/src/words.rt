// What the calls on files share (document 02, Job 5): why they refuse, and words of 32 bits, four bytes each with the lowest first; their sum; and
// coefficients in two's complement.
ghost use Rattle.std.specs.Prelude.{◌≡◌, ◌+◌, ◌*◌, ◌<◌, ◌≤◌, ◌&&◌, leb, ◌++◌, length, take, nat_le};
ghost use Rattle.linear.specs.Tests.{all_to};
ghost use Rattle.calls.specs.Paper.{value};
ghost use Rattle.list_spec.specs.Words.{word_at, word_bytes, wrapping_sum, unsigned, signed as signed_word};
ghost use Rattle.list_file.specs.Paper.{number_of, values_of};
ghost use Rattle.list_file.specs.declared.words.FileRefusal.TheVariants.{System};

use calls::Refusal;

// Why a list or a file is refused; specs/Paper.antt has the document's number for each. A system is refused as by every other call.
#[derive(Clone, Copy)]
pub enum FileRefusal {
    System(Refusal),
    Length,
    Sum,
    Number,
    Range,
    TableLength,
}

impl From<Refusal> for FileRefusal {
    ghost from_gives = { λ why e. e ≡ System why };

    fn from(why: Refusal) -> FileRefusal {
        FileRefusal::System(why)
    }
}

// The document's number of a refusal.
pub fn number_of(why: FileRefusal) -> u64
    ensures { result ≡ number_of why }
{
    match why {
        FileRefusal::System(reason) => calls::number_of(reason),
        FileRefusal::Length => 19,
        FileRefusal::Sum => 20,
        FileRefusal::Number => 21,
        FileRefusal::Range => 22,
        FileRefusal::TableLength => 29,
    }
}

// The value that it comes with: the place for 7, and 0 for all others.
pub fn value_of(why: FileRefusal) -> usize
    ensures { result ≡ value (values_of why) }
{
    match why {
        FileRefusal::System(reason) => calls::value_of(reason),
        _ => 0,
    }
}

// Word `k` of these bytes.
pub(crate) fn word_at(bytes: &[u8], k: usize) -> u32
    requires { 4 * k + 4 ≤ length bytes.now }
    ensures { result ≡ word_at bytes.now k }
{
    let at = 4 * k;
    wide(bytes[at])
        + 256 * wide(bytes[at + 1])
        + 65536 * wide(bytes[at + 2])
        + 16777216 * wide(bytes[at + 3])
}

fn wide(byte: u8) -> u32
    ensures { (result ≡ byte) × (result < 256) }
{
    byte as u32
}

// Makes `w` word `k` of these bytes.
pub(crate) fn put_word(bytes: &mut [u8], k: usize, w: u32)
    requires { 4 * k + 4 ≤ length bytes.old }
    ensures { take (4 * k + 4) bytes.new ≡ take (4 * k) bytes.old ++ word_bytes w }
{
    let at = 4 * k;
    bytes[at] = (w % 256) as u8;
    bytes[at + 1] = (w / 256 % 256) as u8;
    bytes[at + 2] = (w / 65536 % 256) as u8;
    bytes[at + 3] = (w / 16777216 % 256) as u8;
}

// The wrapping sum of the `n` words from word `first` on.
pub(crate) fn wrapping_sum(bytes: &[u8], first: usize, n: usize) -> u32
    requires { 4 * (first + n) ≤ length bytes.now }
    ensures { result ≡ wrapping_sum n (λ j. word_at bytes.now (first + j)) }
{
    let mut sum: u32 = 0;
    for j in 0..n {
        sum = sum.wrapping_add(word_at(bytes, first + j));
    }
    sum
}

// A coefficient as a word, in two's complement.
pub fn to_word(x: i32) -> u32
    ensures { result ≡ unsigned x }
{
    if x < 0 {
        let below = -(x + 1);
        4294967295 - below as u32
    } else {
        x as u32
    }
}

// The coefficient that a word is in two's complement.
pub fn signed(w: u32) -> i32
    ensures { result ≡ signed_word w }
{
    if w < 2147483648 {
        w as i32
    } else {
        let below = (4294967295 - w) as i32;
        -1 - below
    }
}

// Whether the `n` words from word `first` on are at most `limit`. All are looked at, which is quicker than to stop at the first that is not.
pub(crate) fn all_within(bytes: &[u8], first: usize, n: usize, limit: u32) -> bool
    requires { 4 * (first + n) ≤ length bytes.now }
    ensures { result ≡ all_to n (λ j. leb (word_at bytes.now (first + j)) limit) }
{
    let mut within = true;
    for j in 0..n {
        within = also_within(within, word_at(bytes, first + j), limit);
    }
    within
}

// Whether one word more is at most `limit`, after others.
pub fn also_within(others: bool, w: u32, limit: u32) -> bool
    ensures { result ≡ (others && nat_le w limit) }
{
    others && w <= limit
}

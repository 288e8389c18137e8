// Lines of the report.
ghost use Rattle.std.specs.Prelude.{◌++◌, map, ◌+◌, ◌*◌, ◌≤◌, pos, length};
ghost use Rattle.texts.specs.Decimals.{bytes, decimal};
ghost use Rattle.texts.specs.Put.{Put};
ghost use Rattle.map_spec.specs.Form.{line, lines};
ghost use Rattle.report_spec.specs.Printed as paper;
ghost use Rattle.report.specs.Rows.{field_text};

use texts::{put, separator_after};

// A line that ends with a number.
pub fn counted(out: &mut [u8], at: usize, word: &[u8], n: u64) -> usize
    requires { at + length word.now + 21 ≤ length out.old }
    ensures put { Put out.old at (paper.counted word.now n) out.new result }
    ensures upper_bound { result ≤ at + length word.now + 21 }
{
    let digits = put::word(out, at, word);
    let end = put::number(out, digits, n);
    put::byte(out, end, b'\n')
}

// The line of a refusal that comes with a value, at the beginning.
pub fn refused_with(out: &mut [u8], n: u64, word: &[u8], value: usize) -> usize
    requires { length word.now + 49 ≤ length out.old }
    ensures { Put out.old 0 (bytes "refused " ++ (decimal n ++ paper.counted word.now value)) out.new result }
{
    let number = put::word(out, 0, b"refused ");
    let detail = put::number(out, number, n);
    counted(out, detail, word, value as u64)
}

// The line of a row.
fn row(out: &mut [u8], at: usize, numbers: &[u32]) -> usize
    requires { at + 11 * length numbers.now ≤ length out.old }
    ensures put { Put out.old at (line (map pos numbers.now)) out.new result }
    ensures upper_bound { result ≤ at + 11 * length numbers.now }
{
    let mut next = at;
    for (i, n) in numbers.iter().enumerate() {
        next = field(out, next, *n, numbers.len() - (i + 1));
    }
    next
}

// A number that `left` numbers of its line follow, and what separates it from them. It has at most 10 digits.
fn field(out: &mut [u8], at: usize, n: u32, left: usize) -> usize
    requires { at + 11 ≤ length out.old }
    ensures put { Put out.old at (field_text left n) out.new result }
    ensures upper_bound { result ≤ at + 11 }
{
    let end = put::number(out, at, n as u64);
    put::byte(out, end, separator_after(left))
}

// The lines of the first `found` rows of the list.
pub fn rows(out: &mut [u8], at: usize, list: &[u32], found: usize, q: usize) -> usize
    requires { (found * q ≤ length list.now) × (at + 11 * (found * q) ≤ length out.old) }
    ensures put { Put out.old at (lines found q (map pos list.now)) out.new result }
    ensures upper_bound { result ≤ at + 11 * (found * q) }
{
    let mut next = at;
    for k in 0..found {
        let base = k * q;
        next = row(out, next, &list[base..base + q]);
    }
    next
}

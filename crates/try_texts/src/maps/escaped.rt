// The text that an escaped line stands for. `\n`, `\r`, `\t`, `\0` and `\\` stand for a byte, and so does `\x` with two hexadecimal digits; `{3*0 }`
// stands for `0 ` three times, and holds no other braces; each other byte stands for itself.
ghost use Rattle.std.specs.Prelude.{length, ◌≤◌, IfSome};

use crate::slices;
use try_support::tables;

// Writes the text of a line, and returns its length.
pub fn read(line: &[u8], text: &mut [u8]) -> usize {
    let mut length: usize = 0;
    // where the group under way begins in the text, and how many times it stands
    let mut group: usize = 0;
    let mut times: usize = 0;
    let mut rest = line;
    while let [first, others @ ..] = rest {
        rest = others;
        match *first {
            b'\\' => {
                let Some((byte, after)) = escape(others) else {
                    return length;
                };
                tables::put(text, length, byte);
                length = length.wrapping_add(1);
                rest = after;
            }
            b'{' => {
                group = length;
                (times, rest) = count(others);
            }
            b'}' => {
                let end = group.wrapping_add(tables::place(times, length.wrapping_sub(group), 0));
                repeat(text, length, end, length.wrapping_sub(group));
                length = end;
            }
            byte => {
                tables::put(text, length, byte);
                length = length.wrapping_add(1);
            }
        }
    }
    length
}

// The byte that an escape stands for, which begins after its backslash, and what comes after it. One that the line cuts short stands for nothing.
fn escape(rest: &[u8]) -> Option<(u8, &[u8])>
    ensures { IfSome result (λ found. length found.1.now ≤ length rest.now) }
{
    match rest {
        [b'x', high, low, after @ ..] => Some((digit(*high) * 16 + digit(*low), after)),
        [b'x', ..] => None,
        [b'n', after @ ..] => Some((b'\n', after)),
        [b'r', after @ ..] => Some((b'\r', after)),
        [b't', after @ ..] => Some((b'\t', after)),
        [b'0', after @ ..] => Some((0, after)),
        [byte, after @ ..] => Some((*byte, after)),
        [] => None,
    }
}

// The value of a hexadecimal digit in lower case.
fn digit(b: u8) -> u8
    ensures { result ≤ 15 }
{
    match b {
        b'0'..=b'9' => b - b'0',
        b'a'..=b'f' => b - b'a' + 10,
        _ => 0,
    }
}

// How many times a group stands, and what comes after the star.
fn count(rest: &[u8]) -> (usize, &[u8])
    ensures { length result.1.now ≤ length rest.now }
{
    let mut times: usize = 0;
    for (i, byte) in rest.iter().enumerate() {
        if *byte == b'*' {
            return (times, &rest[i + 1..]);
        }
        times = (times % 1000) * 10 + usize::from(digit(*byte));
    }
    (times, &[])
}

// The copies of a group: each byte from `start` up to `end` is the one that stands `period` bytes before.
fn repeat(text: &mut [u8], start: usize, end: usize, period: usize) {
    for i in start..end {
        let byte = text.get(i.wrapping_sub(period)).copied().unwrap_or(0);
        tables::put(text, i, byte);
    }
}

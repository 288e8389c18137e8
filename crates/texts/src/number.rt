// One number of a text, of 1 to `most` digits without leading zeros. A place stands for the text from there on.
ghost use Rattle.std.specs.Prelude.{◌≡◌, drop};
ghost use Rattle.texts.specs.Reading.{is_digit, parsed, more_digits, may_follow, read_natural, negative, read_number, and_then};
ghost use Rattle.texts.specs.Places.{parse_of, DigitAt, Room, FewDigits};

// What was read, and the place after it.
#[derive(Clone, Copy)]
pub struct Parsed<T> {
    pub value: T,
    pub next: usize,
}

// The number that stands at place `at`.
pub fn read_number(text: &[u8], at: usize, most: usize) -> Option<Parsed<i32>>
    requires { FewDigits most }
    ensures { parse_of text.now result ≡ read_number most (drop at text.now) }
{
    if text.len() <= at {
        return None;
    }
    if text[at] == b'-' {
        return read_negative(text, at + 1, most);
    }
    let size = read_natural(text, at, most)?;
    Some(Parsed {
        value: size.value as i32,
        next: size.next,
    })
}

// A number after its minus.
fn read_negative(text: &[u8], at: usize, most: usize) -> Option<Parsed<i32>>
    requires { FewDigits most }
    ensures { parse_of text.now result ≡ and_then (read_natural most (drop at text.now)) negative }
{
    let size = read_natural(text, at, most)?;
    if size.value == 0 {
        return None;
    }
    Some(Parsed {
        value: -(size.value as i32),
        next: size.next,
    })
}

// The number without a sign that stands at place `at`.
pub fn read_natural(text: &[u8], at: usize, most: usize) -> Option<Parsed<u32>>
    requires { FewDigits most }
    ensures { parse_of text.now result ≡ read_natural most (drop at text.now) }
{
    let first = digit_at(text, at)?;
    Some(more_digits(text, at + 1, most, may_follow(most, first), first))
}

// The number that begins with `first` and has up to `k` more digits, `most` of them in all, from place `at` on.
fn more_digits(text: &[u8], at: usize, most: usize, k: usize, first: u32) -> Parsed<u32>
    requires { (FewDigits most) × Room most first k }
    ensures { parsed result.value (drop result.next text.now) ≡ more_digits k first (drop at text.now) }
{
    let mut value = first;
    let mut next = at;
    for _ in 0..k {
        let Some(digit) = digit_at(text, next) else {
            break;
        };
        value = value * 10 + digit;
        next += 1;
    }
    Parsed { value, next }
}

// The digit that stands at place `at`.
fn digit_at(text: &[u8], at: usize) -> Option<u32>
    ensures { DigitAt text.now at result }
{
    if at < text.len() && is_digit(text[at]) {
        Some((text[at] - b'0') as u32)
    } else {
        None
    }
}

pub fn is_digit(byte: u8) -> bool
    ensures { result ≡ is_digit byte }
{
    b'0' <= byte && byte <= b'9'
}

// How many digits may follow the first.
fn may_follow(most: usize, first: u32) -> usize
    requires { FewDigits most }
    ensures { result ≡ may_follow most first }
{
    if first == 0 { 0 } else { most - 1 }
}

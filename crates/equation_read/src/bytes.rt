// Spaces, signs and numbers at a place of a text. A place stands for the text from there on.
ghost use Rattle.std.specs.Prelude.{◌≡◌, drop};
ghost use Rattle.equation_spec.specs.Reader.{skip as skipped, read_index};
ghost use Rattle.texts.specs.Places.{parse_of};
ghost use Rattle.equation_read.specs.Places.{lead_of, is_led, is_minus, after_lead, starts};

use texts::number::{Parsed, read_natural};

// The place after the spaces at place `at`.
pub fn skip(text: &[u8], at: usize) -> usize
    ensures { drop result text.now ≡ skipped (drop at text.now) }
{
    let mut i = at;
    // A while: a search for what is no space would have to say where the text ends in the place of None.
    while i < text.len() && text[i] == b' ' {
        i += 1;
    }
    i
}

// Whether the byte `byte` stands at place `at`.
pub fn stands(text: &[u8], at: usize, byte: u8) -> bool
    ensures { result ≡ starts byte (drop at text.now) }
{
    at < text.len() && text[at] == byte
}

// Whether a sign stands at place `at`.
pub fn is_sign(text: &[u8], at: usize) -> bool
    ensures { result ≡ is_led (lead_of (drop at text.now)) }
{
    stands(text, at, b'+') || stands(text, at, b'-')
}

// Whether a minus stands at place `at`.
pub fn is_minus(text: &[u8], at: usize) -> bool
    ensures { result ≡ is_minus (lead_of (drop at text.now)) }
{
    stands(text, at, b'-')
}

// The place after a sign and spaces, if a sign stands at place `at`.
pub fn after_sign(text: &[u8], at: usize) -> usize
    ensures { drop result text.now ≡ after_lead (drop at text.now) }
{
    if is_sign(text, at) {
        skip(text, at + 1)
    } else {
        at
    }
}

// The number of an unknown.
pub fn read_index(text: &[u8], at: usize, q: usize) -> Option<Parsed<u32>>
    ensures { parse_of text.now result ≡ read_index q (drop at text.now) }
{
    let index = read_natural(text, at, 5)?;
    if index.value < 1 || q < index.value as usize {
        return None;
    }
    Some(index)
}

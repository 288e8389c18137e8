// Parts of texts.
ghost use Rattle.std.specs.Prelude.{◌≤◌};

// The bytes from `start` up to `end`, or none where the slice has no such part.
pub fn part(bytes: &[u8], start: usize, end: usize) -> &[u8] {
    bytes.get(start..end).unwrap_or(&[])
}

// The bytes before the first sign @, and those after it and after one byte more, which ends its line.
pub fn section(bytes: &[u8]) -> (&[u8], &[u8]) {
    let sign = bytes.iter().position(|b| *b == b'@');
    let end = sign.unwrap_or(bytes.len());
    let after = bytes.get(end.saturating_add(2)..);
    (part(bytes, 0, end), after.unwrap_or(&[]))
}

// The value of a digit, and 0 of any other byte.
pub fn digit(byte: u8) -> usize
    ensures { result ≤ 9 }
{
    match byte {
        b'0'..=b'9' => usize::from(byte - b'0'),
        _ => 0,
    }
}

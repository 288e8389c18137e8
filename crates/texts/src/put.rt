// Writing into a buffer: each writer takes the place to write at, and returns the place after what it wrote.
ghost use Rattle.std.specs.Prelude.{◌≡◌, [], ◌∷◌, ◌+◌, ◌≤◌, ◌<◌, nat_abs, length};
ghost use Rattle.texts.specs.Decimals.{decimal, numeral};
ghost use Rattle.texts.specs.Put.{Put};

pub fn byte(out: &mut [u8], at: usize, b: u8) -> usize
    requires { at < length out.old }
    ensures { Put out.old at (b ∷ []) out.new result }
{
    out[at] = b;
    at + 1
}

pub fn word(out: &mut [u8], at: usize, bytes: &[u8]) -> usize
    requires { at + length bytes.now ≤ length out.old }
    ensures { Put out.old at bytes.now out.new result }
{
    let next = at + bytes.len();
    out[at..next].copy_from_slice(bytes);
    next
}

// A number in decimal notation.
pub fn number(out: &mut [u8], at: usize, n: u64) -> usize
    requires { at + length (decimal n) ≤ length out.old }
    ensures { Put out.old at (decimal n) out.new result }
{
    if n < 10 {
        return byte(out, at, b'0' + n as u8);
    }
    let next = number(out, at, n / 10);
    byte(out, next, b'0' + (n % 10) as u8)
}

// A number with its sign.
pub fn signed(out: &mut [u8], at: usize, z: i32) -> usize
    requires { at + length (numeral z) ≤ length out.old }
    ensures { Put out.old at (numeral z) out.new result }
{
    if z < 0 {
        let next = byte(out, at, b'-');
        return number(out, next, size(z));
    }
    number(out, at, size(z))
}

// A number without its sign.
pub fn size(z: i32) -> u64
    ensures { result ≡ nat_abs z }
{
    u64::from(z.unsigned_abs())
}

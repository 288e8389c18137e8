// The line of a minimal solution: "1 2 3 order 1 3 2", and a newline. It has at most 102 bytes.
ghost use Rattle.std.specs.Prelude.{◌≡◌, ◌++◌, ◌∷◌, [], ◌+◌, ◌*◌, ◌≤◌, ◌<◌, length, get_or};
ghost use Rattle.single_order.specs.Rows.{map_of};
ghost use Rattle.texts.specs.Decimals.{decimal, space};
ghost use Rattle.texts.specs.Put.{Put};
ghost use Rattle.single_spec.specs.Listing.{loop_line, rising_to, order_to};
ghost use Rattle.single_spec.specs.Profile.{is_circuit_of};
ghost use Rattle.single_order.specs.Rows.{if_so, row_of, Fits};
ghost use Rattle.single_listing.specs.Lines.{LineOf, Low, Room};

use texts::put;

// How long the line of the row from place `base` is, where the row is a minimal solution.
pub fn measure(p: usize, q: usize, coefs: &[i32], list: &[u32], base: usize) -> Option<usize>
    requires { (q ≤ 16) × Fits p q (length coefs.now) base (length list.now) }
    ensures { result ≡ if_so (is_circuit_of (map_of p q coefs.now) (row_of list.now base))
        (length (loop_line (map_of p q coefs.now) (row_of list.now base))) }
{
    let mut line = [0u8; 128];
    make(p, q, coefs, list, base, &mut line)
}

// Writes the line of the row from place `base`, which is a minimal solution.
pub fn write(
    p: usize,
    q: usize,
    coefs: &[i32],
    list: &[u32],
    base: usize,
    out: &mut [u8],
    at: usize,
) -> usize
    requires { (q ≤ 16) × Fits p q (length coefs.now) base (length list.now)
        × Room (map_of p q coefs.now) (row_of list.now base) at (length out.old) }
    ensures { Put out.old at (loop_line (map_of p q coefs.now) (row_of list.now base)) out.new result }
{
    let mut line = [0u8; 128];
    let n = make(p, q, coefs, list, base, &mut line).unwrap();
    put::word(out, at, &line[..n])
}

// Makes the line of a minimal solution at the beginning of `line`, and says how long it is.
fn make(
    p: usize,
    q: usize,
    coefs: &[i32],
    list: &[u32],
    base: usize,
    line: &mut [u8],
) -> Option<usize>
    requires { (q ≤ 16) × Fits p q (length coefs.now) base (length list.now) × (128 ≤ length line.old) }
    ensures { LineOf (map_of p q coefs.now) (row_of list.now base) line.new result }
{
    let mut order = [0usize; 16];
    let size = single_order::order_of(p, q, coefs, list, base, &mut order)?;
    let named = rising(line, q, list, base);
    let word = put::word(line, named, b"order");
    let end = ordered(line, word, &order[..size]);
    Some(put::byte(line, end, b'\n'))
}

// The unknowns of the row, rising, each before a space.
fn rising(line: &mut [u8], q: usize, list: &[u32], base: usize) -> usize
    requires { (q ≤ 16) × (base + q ≤ length list.now) × (48 ≤ length line.old) }
    ensures put { Put line.old 0 (rising_to q (row_of list.now base)) line.new result }
    ensures upper_bound { result ≤ 3 * q }
{
    let mut at = 0;
    for j in 0..q {
        if list[base + j] != 0 {
            at = before_space(line, at, j);
        }
    }
    at
}

// The unknowns of the order, each after a space.
fn ordered(line: &mut [u8], at: usize, order: &[usize]) -> usize
    requires { (length order.now ≤ 16) × (at + 3 * length order.now ≤ length line.old) × Low order.now }
    ensures put { Put line.old at (order_to (length order.now) (λ k. get_or order.now k 0)) line.new result }
    ensures upper_bound { result ≤ at + 3 * length order.now }
{
    let mut next = at;
    for j in order {
        next = after_space(line, next, *j);
    }
    next
}

// The number of unknown `j`, from 1, and a space.
fn before_space(line: &mut [u8], at: usize, j: usize) -> usize
    requires { (j < 16) × (at + 3 ≤ length line.old) }
    ensures put { Put line.old at (decimal (j + 1) ++ (space ∷ [])) line.new result }
    ensures upper_bound { result ≤ at + 3 }
{
    let end = put::number(line, at, j as u64 + 1);
    put::byte(line, end, b' ')
}

// A space, and the number of unknown `j`.
fn after_space(line: &mut [u8], at: usize, j: usize) -> usize
    requires { (j < 16) × (at + 3 ≤ length line.old) }
    ensures put { Put line.old at (space ∷ decimal (j + 1)) line.new result }
    ensures upper_bound { result ≤ at + 3 }
{
    let digits = put::byte(line, at, b' ');
    put::number(line, digits, j as u64 + 1)
}

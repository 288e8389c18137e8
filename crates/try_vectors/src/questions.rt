// The questions of a line: they are asked as the line has them, and the answers held against what the line says. Its operands are p, q and the count of rows;
// t is the tuple, n the table of multiples before and after; the answers are the reason, the highest place, the parts, and the amount with its sign. The
// number lent for the amount holds 9 before. A line of kind e is asked of the calls for larger maps, the others of document 02's.
use try_support::line::Line;

// The kinds of question, by the letters of their lines.
pub const KINDS: [(&str, u8); 2] = [("questions", b'q'), ("engine", b'e')];

// Whether the answers are those of the line: why the tuple is not listed, which row stopped it, and what it is made of. One whose tables have no room is
// not asked.
pub fn agrees(kind: u8, l: &Line) -> bool {
    if !(l.coefs.fits() && l.list.fits() && l.tuple.fits() && l.second.fits()) {
        return false;
    }
    let p = l.operands[0] as usize;
    let q = l.operands[1] as usize;
    let found = l.operands[2] as usize;
    let c = l.coefs.entries();
    let rows = l.list.entries();
    let t = l.tuple.entries();
    let mut off = [9i64; 1];
    let mut rest = [9i64; 1];
    let mut times = l.second;
    let n = times.lend();
    let (reason, place, parts) = if kind == b'e' {
        (
            reasons::told::reason_large(p, q, c, rows, found, t, &mut off),
            reader::lookups::locate_large_number(rows, q, found, t),
            multiples::decompose_large_number(p, q, c, rows, found, t, n, &mut rest),
        )
    } else {
        (
            reasons::told::reason(p, q, c, rows, found, t, &mut off),
            reader::lookups::locate_number(rows, q, found, t),
            multiples::decompose_number(p, q, c, rows, found, t, n, &mut rest),
        )
    };
    let amount = signed(l.answered[3], l.answered[4] == 1);
    l.answered.starts_with(&[reason, place, parts])
        && off[0] == amount
        && rest[0] == amount
        && times.agrees()
}

// The lower 63 bits of a number, with a sign: -1 - x is what the bits of x are when each is turned over.
fn signed(size: u64, minus: bool) -> i64 {
    if minus {
        !((size.wrapping_sub(1) % 9223372036854775808) as i64)
    } else {
        (size % 9223372036854775808) as i64
    }
}

// What the writer looks at: refusals 1, 2, 3, 7, 22 and 19.
ghost use Rattle.std.specs.Prelude.{◌≡◌, ℕ, ◌≤◌, [], length};
ghost use Rattle.list_spec.specs.Writing.{rows_in_range, list_in_range, write_checks};
ghost use Rattle.list_file.specs.Paper.{check_of};
ghost use Rattle.list_file.specs.WriteAnswer.{list_of};
ghost use Rattle.list_file.specs.WriteCheckLaws.{list_checks};

use crate::words::{FileRefusal, also_within};

// All that the writer looks at; `room` is the length of the buffer.
pub fn check(
    p: usize,
    q: usize,
    coefs: &[i32],
    rows: &[u32],
    ending: u32,
    room: usize,
) -> Result<(), FileRefusal>
    ensures { check_of result ≡ write_checks (list_of p q coefs.now rows.now ending) room }
{
    checks::counts::check(p, q, 0, coefs.len())?;
    checks::coefficients::check(coefs)?;
    check_rows(q, coefs, rows, ending, room)
}

// Refusals 22 and 19, which do not depend on p.
fn check_rows(
    q: usize,
    coefs: &[i32],
    rows: &[u32],
    ending: u32,
    room: usize,
) -> Result<(), FileRefusal>
    requires { (1 ≤ q) × (q ≤ 16) × (length coefs.now ≤ 128) }
    ensures { (p : ℕ) → check_of result ≡ list_checks (list_of p q coefs.now rows.now ending) room }
{
    if !list_in_range(q, rows, ending) {
        return Err(FileRefusal::Range);
    }
    let later = (coefs.len() + rows.len() + 125) / 126;
    if room != 512 * (later + 1) {
        return Err(FileRefusal::Length);
    }
    Ok(())
}

// Whether the rows are whole, few enough and in range, and the ending is one of the two.
fn list_in_range(q: usize, rows: &[u32], ending: u32) -> bool
    requires { 1 ≤ q }
    ensures { result ≡ list_in_range (list_of 0 q [] rows.now ending) }
{
    if rows.len() % q != 0 {
        return false;
    }
    if 4096 < rows.len() / q {
        return false;
    }
    if 1 < ending {
        return false;
    }
    rows_in_range(rows)
}

// Whether every component is within the limit.
fn rows_in_range(rows: &[u32]) -> bool
    ensures { result ≡ rows_in_range rows.now }
{
    let mut within = true;
    for x in rows {
        within = also_within(within, *x, calls::COMPONENT_LIMIT);
    }
    within
}

// A whole equation: the refusals in their order, and the row.
ghost use Rattle.std.specs.Prelude.{◌≡◌, ◌≤◌, ◌<◌, ◌+◌, pos, neg_ℤ, nat_abs, length, get_or};
ghost use Rattle.equation_spec.specs.Scan.{place as fault_place};
ghost use Rattle.equation_spec.specs.Reader.{read_equation};
ghost use Rattle.equation_spec.specs.Outcome.{outcome, tree_outcome, list};
ghost use Rattle.equation_read.specs.Answer.{answer_of, answered, totals_outcome, Ranged};

use crate::bytes::skip;
use crate::scan::place;
use crate::sums::read_sum;
use crate::totals::out_of_range;

// Why a text is refused; specs/Answer.antt has the papers' number for each.
#[derive(Clone, Copy)]
pub enum EquationRefusal {
    Length,
    Unknowns,
    Row,
    Grammar(usize),
    Depth,
    Multiplier,
    Coefficient(usize),
    RightSide,
}

// Reads the equation that `text` writes for `q` unknowns, up to its right side; its coefficients go to `row`.
pub fn read_equation(text: &[u8], q: usize, row: &mut [i32]) -> Result<i32, EquationRefusal>
    ensures { answer_of result row.new ≡ answered (outcome q (length row.old) text.now) row.old }
{
    if 4096 < text.len() {
        return Err(EquationRefusal::Length);
    }
    if q < 1 || 16 < q {
        return Err(EquationRefusal::Unknowns);
    }
    if row.len() != q {
        return Err(EquationRefusal::Row);
    }
    if let Some(fault) = place(text, q) {
        return Err(EquationRefusal::Grammar(fault));
    }
    read_sides(text, q, row)
}

// An equation that is in the grammar.
fn read_sides(text: &[u8], q: usize, row: &mut [i32]) -> Result<i32, EquationRefusal>
    requires { (length text.now ≤ 4096) × (1 ≤ q) × (q ≤ 16) × (length row.old ≡ q) × (fault_place q text.now ≡ 0) }
    ensures { answer_of result row.new
        ≡ answered (tree_outcome q text.now (read_equation q (length text.now) text.now)) row.old }
{
    let mut totals = [0i64; 17];
    let Some(left) = read_sum(text, 0, q, 8, 1, &mut totals) else {
        return Err(EquationRefusal::Depth);
    };
    let sign = skip(text, left.next);
    let Some(right) = read_sum(text, skip(text, sign + 1), q, 8, -1, &mut totals) else {
        return Err(EquationRefusal::Depth);
    };
    if left.exceeds | right.exceeds {
        return Err(EquationRefusal::Multiplier);
    }
    accept(q, &totals, row)
}

// The row and the right side that were collected, if they are in range.
fn accept(q: usize, totals: &[i64; 17], row: &mut [i32]) -> Result<i32, EquationRefusal>
    requires { (q ≤ 16) × (length row.old ≡ q) }
    ensures { answer_of result row.new ≡ answered (totals_outcome q totals.now) row.old }
{
    if let Some(i) = (0..q).position(|i| out_of_range(totals[i + 1])) {
        return Err(EquationRefusal::Coefficient(i + 1));
    }
    if out_of_range(totals[0]) {
        return Err(EquationRefusal::RightSide);
    }
    write_row(q, totals, row);
    Ok(negated(totals[0]))
}

// Writes the coefficients to `row`.
fn write_row(q: usize, totals: &[i64; 17], row: &mut [i32])
    requires { (q ≤ 16) × (length row.old ≡ q) × Ranged q totals.now }
    ensures { row.new ≡ list q 1 (λ k. get_or totals.now k (pos 0)) }
{
    for i in 0..q {
        row[i] = narrow(totals[i + 1]);
    }
}

fn narrow(z: i64) -> i32
    requires { nat_abs z ≤ 10000 }
    ensures { result ≡ z }
{
    z as i32
}

fn negated(z: i64) -> i32
    requires { nat_abs z ≤ 10000 }
    ensures { result ≡ neg_ℤ z }
{
    (-z) as i32
}

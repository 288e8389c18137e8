// Whether the record and the tables are in order. Nothing lent is changed.
ghost use Rattle.std.specs.Prelude.{◌≡◌, ◌*◌, ◌≤◌, length};
ghost use Rattle.linear.specs.Tuples.{total};
ghost use Rattle.definitions.specs.Tables.{at};
ghost use Rattle.engine_spec.specs.Beside.{SmallTable};
ghost use Rattle.engine_spec.specs.Calls.{coefficients_small, in_order, is_list, is_rising, marks_in_order, row_limit};
ghost use Rattle.engine_beside.specs.Records.{work_of};
ghost use Rattle.engine_checks.specs.Order.{Within, are_rows, none_zero, record_in_order, rises_by};

use crate::signs;
use engine_beside::{Record, degrees, small};

pub fn in_order(
    p: usize,
    q: usize,
    equations: &[i32],
    basis: &[u32],
    table: &[u32],
    most: usize,
    room: usize,
    r: Record,
) -> bool
    requires { Within p q most room (length equations.now) (length basis.now) (length table.now) }
    ensures { result ≡ in_order p q most room (work_of equations.now basis.now table.now r) }
{
    record_in_order(p, most, room, r)
        && coefficients_small(equations, p * q)
        && are_rows(basis, r.count.0, q)
        && small::small_rows(table, r.rows, q)
        && rising(table, r.rows, q, r.degree)
}

// The numbers of the record.
#[tactic(auto, unfolding(crate::specs::Order::record_in_order))]
fn record_in_order(p: usize, most: usize, room: usize, r: Record) -> bool
    requires { p ≤ 32 }
    ensures { result ≡ record_in_order p most room r.count.0 r.rows r.steps.0 r.done r.equation }
{
    let past: u64 = 1 << p;
    r.count.0 <= most
        && r.rows <= room
        && r.steps.0 <= calls::STEP_LIMIT
        && u64::from(r.done) < past
        && marks_in_order(p, r.done, r.equation)
}

// Whether the equation under way is not done.
#[tactic(auto, unfolding(engine_spec::specs::Calls::marks_in_order))]
fn marks_in_order(p: usize, done: u32, equation: usize) -> bool
    requires { p ≤ 32 }
    ensures { result ≡ marks_in_order p done equation }
{
    equation <= p && !(equation < p && signs::is_done(done, equation))
}

// Whether the first n coefficients of the working system are within their limit.
fn coefficients_small(equations: &[i32], n: usize) -> bool
    requires { n ≤ length equations.now }
    ensures { result ≡ coefficients_small n equations.now }
{
    (0..n).all(|i| signs::is_small(i64::from(equations[i])))
}

// Whether each of the first m rows is within the component limit and not all zero.

fn are_rows(table: &[u32], m: usize, q: usize) -> bool
    requires { (q ≤ 32) × (m * q ≤ length table.now) }
    ensures { result ≡ are_rows q m (at table.now q) }
{
    small::small_rows(table, m, q) && none_zero(table, m, q)
}

// Whether a list handed over is n rows of q numbers, each within the component limit and not all zero.
#[tactic(auto, unfolding(engine_spec::specs::Calls::is_list, crate::specs::Order::are_rows))]
pub fn is_list(rows: &[u32], n: usize, q: usize) -> bool
    requires { (q ≤ 32) × (n ≤ row_limit) }
    ensures { result ≡ is_list q n rows.now }
{
    rows.len() == n * q && are_rows(rows, n, q)
}

// Whether none of the first m rows is all zero.
fn none_zero(table: &[u32], m: usize, q: usize) -> bool
    requires { SmallTable q m table.now }
    ensures { result ≡ none_zero q m (at table.now q) }
{
    (0..m).all(|i| degrees::degree_at(table, i * q, q) != 0)
}

// Whether no degree of the first n rows is 0, below the one before or above d.
fn rising(table: &[u32], n: usize, q: usize, d: u64) -> bool
    requires { SmallTable q n table.now }
    ensures { result ≡ is_rising n (λ i. total (at table.now q i) q) d }
{
    let mut before: u32 = 0;
    for i in 0..n {
        let degree = degrees::degree_at(table, i * q, q);
        if !rises(before, degree, d) {
            return false;
        }
        before = degree;
    }
    true
}

#[tactic(auto, unfolding(crate::specs::Order::rises_by))]
fn rises(before: u32, degree: u32, d: u64) -> bool
    ensures { result ≡ rises_by before degree d }
{
    0 < degree && before <= degree && u64::from(degree) <= d
}

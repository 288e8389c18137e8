// What a stage does next, from the degrees of the basis and from the values and degrees beside its table: the rows themselves are never read. The rows
// of the table are sorted by degree. Open specs/Places.antt first.
#![tactic(auto)]

ghost use Rattle.std.specs.Prelude.{◌≡◌, max, min, ◌+◌, ◌-◌, ◌≤◌, ◌<◌, eqb, pos, length, MatchOption};
ghost use Rattle.std.specs.Int.Signed.{lt_z};
ghost use Rattle.std.specs.Option.{unwrap_or};
ghost use Rattle.engine_spec.specs.Search as search;
ghost use Rattle.engine_search.specs.Falls.{Back, Fallen, Low};
ghost use Rattle.engine_search.specs.Places.{Falling, Found, IsLeast, Ranked, degree_of, least_pair, next_degree_by, value_of};
ghost use Rattle.engine_search.specs.Scans.{Below};

// The pair of rows that is next. From row `first` on, no degree is below what the degree of `upper` leaves.
#[derive(Clone, Copy)]
pub struct Place {
    pub upper: usize,
    pub lower: usize,
    pub first: usize,
}

// The first row of the basis from `from` on with degree d, by the degrees of its m rows.
pub fn due_row(sizes: &[u32], m: usize, from: usize, d: u64) -> Option<usize>
    requires { m ≤ length sizes.now }
    ensures { MatchOption result (m ≤ search.first_in m from (λ i. eqb (degree_of sizes.now i) d))
        (λ i. (i < m) × (i ≡ search.first_in m from (λ i. eqb (degree_of sizes.now i) d))) }
{
    (from..m).find(
        |&i|
            requires { i < length sizes.now }
        { u64::from(sizes[i]) == d },
    )
}

// The first pair of degree d from (at.upper, at.lower) on.
pub fn next_pair(values: &[i64], degrees: &[u32], n: usize, d: u64, at: Place) -> Option<Place>
    requires { Ranked n values.now degrees.now × Falling n degrees.now d at.upper at.first }
    ensures { Found n values.now degrees.now d at.upper at.lower result }
{
    let mut lower = at.lower;
    let mut first = at.first.min(n);
    for upper in at.upper..n {
        let x = wide(degrees[upper]);
        if d <= x {
            return None;
        }
        let from = lower;
        lower = 0;
        if !is_above(values[upper]) {
            continue;
        }
        let e = d - x;
        first = back(degrees, first, e);
        if let Some(k) = next_below(values, degrees, n, from.max(first), e) {
            return Some(Place {
                upper: upper,
                lower: k,
                first: first,
            });
        }
    }
    None
}

// The least degree above d of a row of the basis or of a pair.
pub fn next_degree(
    values: &[i64],
    degrees: &[u32],
    n: usize,
    sizes: &[u32],
    m: usize,
    d: u64,
) -> Option<u64>
    requires { Ranked n values.now degrees.now × (m ≤ length sizes.now) }
    ensures { IsLeast d (next_degree_by d m (degree_of sizes.now) n (value_of values.now) (degree_of degrees.now)) result }
{
    let pairs = least_pair(values, degrees, n, d);
    match least_size(sizes, m, d) {
        Some(size) => lesser(d, size, pairs),
        None => pairs,
    }
}

// The least degree above d of the m rows of the basis.
fn least_size(sizes: &[u32], m: usize, d: u64) -> Option<u64>
    requires { m ≤ length sizes.now }
    ensures { IsLeast d (search.least_to d m (degree_of sizes.now)) result }
{
    let mut best = None;
    for i in 0..m {
        best = lesser(d, wide(sizes[i]), best);
    }
    best
}

// The least degree above d of a pair. As the degree of the upper row rises, the place from which on the sum is above d falls, and with it the first
// row there with a value below 0.
fn least_pair(values: &[i64], degrees: &[u32], n: usize, d: u64) -> Option<u64>
    requires { Ranked n values.now degrees.now }
    ensures { IsLeast d (least_pair d n (value_of values.now) (degree_of degrees.now) n) result }
{
    let mut best = None;
    let mut edge = Edge {
        first: n,
        low: None,
    };
    for h in 0..n {
        if !is_above(values[h]) {
            continue;
        }
        let x = wide(degrees[h]);
        edge = fall(values, degrees, n, missing(d, x), edge);
        if let Some(k) = edge.low {
            best = lesser(d, x + wide(degrees[k]), best);
        }
    }
    best
}

// From row `first` on no degree is below some number; `low` is the first of them with a value below 0.
#[derive(Clone, Copy)]
struct Edge {
    first: usize,
    low: Option<usize>,
}

// `first` falls to the first row of degree e or more, and `low` with it.
fn fall(values: &[i64], degrees: &[u32], n: usize, e: u64, at: Edge) -> Edge
    requires { Ranked n values.now degrees.now × (at.first ≤ n) × Low n values.now at.first at.low }
    ensures { Fallen n values.now degrees.now e at.first result.first result.low }
{
    let first = back(degrees, at.first, e);
    let low = (first..at.first).find(
        |&k|
            requires { k < length values.now }
        { is_below(values[k]) },
    );
    Edge {
        first: first,
        low: low.or(at.low),
    }
}

// The first row of degree e or more, where that holds from `from` on.
fn back(degrees: &[u32], from: usize, e: u64) -> usize
    requires { from ≤ length degrees.now }
    ensures { Back degrees.now e from result }
{
    let mut first = from;
    // A while, as it goes down until a degree is below e, wherever it began.
    while 0 < first && e <= wide(degrees[first - 1]) {
        first -= 1;
    }
    first
}

// The first of the n rows from `from` on with degree e and a value below 0.
fn next_below(values: &[i64], degrees: &[u32], n: usize, from: usize, e: u64) -> Option<usize>
    requires { Ranked n values.now degrees.now }
    ensures { Below n values.now degrees.now e from result }
{
    for k in from..n {
        let x = wide(degrees[k]);
        if e < x {
            return None;
        }
        if x == e && is_below(values[k]) {
            return Some(k);
        }
    }
    None
}

// x in the place of the least so far, where it is above d and less than that, or there is none yet.
fn lesser(d: u64, x: u64, known: Option<u64>) -> Option<u64>
    requires { MatchOption known (Unit {0}) (λ y. d < y) }
    ensures { IsLeast d (search.lesser d x (unwrap_or known 0)) result }
{
    if x <= d {
        return known;
    }
    Some(known.map_or(x, |y| y.min(x)))
}

// What x lacks to be above d.
fn missing(d: u64, x: u64) -> u64
    requires { 0 < x }
    ensures { result ≡ d + 1 - x }
{
    if x <= d { d - x + 1 } else { 0 }
}

fn is_above(x: i64) -> bool
    ensures { result ≡ lt_z (pos 0) x }
{
    0 < x
}

fn is_below(x: i64) -> bool
    ensures { result ≡ lt_z x (pos 0) }
{
    x < 0
}

fn wide(x: u32) -> u64
    ensures { result ≡ x }
{
    u64::from(x)
}

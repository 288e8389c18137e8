// Whether rows follow from others: a row taken some times, and others as often as is told, added up column by column.
ghost use Rattle.std.specs.Prelude.{◌≡◌, ◌+◌, ◌*◌, ◌<◌};
ghost use Rattle.reformulation_spec.specs.Reformulation as paper;
ghost use Rattle.reformulation_spec.specs.Reformulation.{meets, row_of};
ghost use Rattle.reformulation.specs.Sums.{Lines, SmallSums, line_at};

// Rows of w numbers, n rows of another table, and multiples of these, 1 + n for each row.
#[derive(Clone, Copy)]
pub struct Tables<'a> {
    pub w: usize,
    pub n: usize,
    pub by: &'a [i64],
    pub rows: &'a [i32],
    pub table: &'a [i32],
}

// Each of `count` rows, from row `first` on.
pub fn all_follow(exact: bool, columns: usize, count: usize, first: usize, t: &Tables) -> bool
    requires { Lines columns t.now.w t.now.n count first t.now.by.now t.now.rows.now t.now.table.now }
    ensures { result ≡
        paper.all_follow exact columns t.now.n count first (row_of (1 + t.now.n) t.now.by.now) (row_of t.now.w t.now.rows.now)
        (row_of t.now.w t.now.table.now) }
{
    (0..count).all(|i| follows(exact, columns, t, i * (1 + t.n), (first + i) * t.w))
}

// The row that stands from place `base`, by the multiples from place `from`.
fn follows(exact: bool, columns: usize, t: &Tables, from: usize, base: usize) -> bool
    requires { SmallSums columns t.now.w t.now.n t.now.by.now from t.now.rows.now base t.now.table.now }
    ensures { result ≡
        paper.follows exact columns t.now.n (line_at t.now.by.now from) (line_at t.now.rows.now base) (row_of t.now.w t.now.table.now) }
{
    0 < t.by[from] && (0..columns).all(|j| is_met(exact, left_over(t, from, base, columns, j)))
}

fn is_met(exact: bool, z: i64) -> bool
    ensures { result ≡ meets exact z }
{
    0 <= z && !(exact && 0 < z)
}

// What is left over in column j of the first `columns`.
fn left_over(t: &Tables, from: usize, base: usize, columns: usize, j: usize) -> i64
    requires { SmallSums columns t.now.w t.now.n t.now.by.now from t.now.rows.now base t.now.table.now × (j < columns) }
    ensures { result ≡
        paper.left_over t.now.n (line_at t.now.by.now from) (line_at t.now.rows.now base) (row_of t.now.w t.now.table.now) j }
{
    let mut sum: i64 = t.by[from] * i64::from(t.rows[base + j]);
    for r in 0..t.n {
        sum += t.by[from + 1 + r] * i64::from(t.table[r * t.w + j]);
    }
    sum
}

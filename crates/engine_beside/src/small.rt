// Whether rows are within the component limit.
ghost use Rattle.std.specs.Prelude.{◌≡◌, ◌+◌, ◌*◌, ◌≤◌, length};
ghost use Rattle.definitions.specs.Tables.{at};
ghost use Rattle.engine_spec.specs.Beside.{row_at};
ghost use Rattle.engine_spec.specs.Reduction.{is_small};
ghost use Rattle.engine_beside.specs.SmallRows.{are_small};

use crate::places;

// Whether no component of the first n rows is above 1,000,000. They stand one behind the other, and are asked as one row.
pub fn small_rows(table: &[u32], n: usize, q: usize) -> bool
    requires { n * q ≤ length table.now }
    ensures { result ≡ are_small q n (at table.now q) }
{
    small_at(table, 0, n * q)
}

// The same of the row that stands in the table from place `base`.
pub fn small_at(table: &[u32], base: usize, q: usize) -> bool
    requires { base + q ≤ length table.now }
    ensures { result ≡ is_small q (row_at table.now base) }
{
    places::at_every(q, |j| table[base + j] <= calls::COMPONENT_LIMIT)
}

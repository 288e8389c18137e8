// The rows that find room in what is lent.
ghost use Rattle.std.specs.Prelude.{◌≡◌, min};
ghost use Rattle.engine_spec.specs.Calls.{rows_in};
ghost use Rattle.engine_checks.specs.Room.{basis_rows, stage_rows};

// Those of the basis, from the numbers of entries of its table and of the degrees beside it.
pub fn basis_room(q: usize, basis: usize, sizes: usize) -> usize
    ensures { result ≡ basis_rows q basis sizes }
{
    rows_in(q, basis).min(sizes)
}

// Those of the stage.
pub fn stage_room(
    q: usize,
    table: usize,
    values: usize,
    words: usize,
    degrees: usize,
    marks: usize,
    mothers: usize,
) -> usize
    ensures { result ≡ stage_rows q table values words degrees marks mothers }
{
    rows_in(q, table)
        .min(values)
        .min(words.min(degrees))
        .min(marks.min(mothers))
}

fn rows_in(q: usize, numbers: usize) -> usize
    ensures { result ≡ rows_in q numbers }
{
    if q == 0 {
        return 0;
    }
    (numbers / q).min(1000000000)
}

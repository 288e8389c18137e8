// A map in the place of another with the same minimal solutions: whether numbers show it, and rows without the further unknowns.
ghost use Rattle.std.specs.Prelude.{◌≡◌};
ghost use Rattle.reformulation_spec.specs.Reformulation as paper;
ghost use Rattle.reformulation_spec.specs.Reformulation.{reformulation};
ghost use Rattle.reformulation.specs.Numbers.{project_told, shown_told};

// Whether the numbers show it.
#[unsafe(no_mangle)]
pub extern "C" fn dezgula_raw_engine_reformulates(
    p: usize,
    q: usize,
    k: usize,
    m: usize,
    coefs: &[i32],
    extended: &[i32],
    other: &[i32],
    onto: &[i64],
    back: &[i64],
    above: &[i64],
) -> u64
    ensures { result ≡
        shown_told (paper.reformulates (reformulation p q k m coefs.now extended.now other.now onto.now
        back.now above.now)) }
{
    reformulation::reformulates(p, q, k, m, coefs, extended, other, onto, back, above)
}

// The first q numbers of each row.
#[unsafe(no_mangle)]
pub extern "C" fn dezgula_raw_engine_project(
    q: usize,
    k: usize,
    found: usize,
    rows: &[u32],
    out: &mut [u32],
) -> u64
    ensures { (result, out.new) ≡ project_told q k found rows.now out.old }
{
    reformulation::project(q, k, found, rows, out)
}

// Rows copied, without their further unknowns.
ghost use Rattle.std.specs.Prelude.{◌≡◌, ◌+◌, ◌*◌, ◌≤◌, length};
ghost use Rattle.definitions.specs.Tables.{at};
ghost use Rattle.reformulation_spec.specs.Reformulation.{project_to};

// The first q numbers of each of the first n rows of q + k.
pub fn copy(q: usize, k: usize, n: usize, rows: &[u32], out: &mut [u32])
    requires { (q + k ≤ 32) × (n * (q + k) ≤ length rows.now) × (n * q ≤ length out.old) }
    ensures { out.new ≡ project_to n q (at rows.now (q + k)) out.old }
{
    for i in 0..n {
        let from = i * (q + k);
        out[i * q..i * q + q].copy_from_slice(&rows[from..from + q]);
    }
}

// Writing a list to a file (document 02, Job 5).
ghost use Rattle.std.specs.Prelude.{◌≡◌};
ghost use Rattle.list_spec.specs.Writing.{write_list};
ghost use Rattle.list_file.specs.WriteAnswer.{list_of, write_outcome};

use crate::words::FileRefusal;

mod blocks; // blocks.rt: writing the blocks
mod checking; // checking.rt: what the writer looks at
mod content; // content.rt: the words that are written

// Writes the system, the rows of its list and the ending (0 complete, 1 paused) into `out`, which has the exact length.
pub fn write_list(
    p: usize,
    q: usize,
    coefs: &[i32],
    rows: &[u32],
    ending: u32,
    out: &mut [u8],
) -> Result<(), FileRefusal>
    ensures { write_outcome result out.new ≡ write_list (list_of p q coefs.now rows.now ending) out.old }
{
    checking::check(p, q, coefs, rows, ending, out.len())?;
    blocks::write(p, q, coefs, rows, ending, out);
    Ok(())
}

// Reading a list from a file (document 02, Job 5).
ghost use Rattle.std.specs.Prelude.{◌≡◌};
ghost use Rattle.list_spec.specs.Reading.{read_file};
ghost use Rattle.list_file.specs.ReadAnswer.{read_outcome};

use crate::words::FileRefusal;
use calls::Solutions;

mod checking; // checking.rt: what the reader looks at
mod tables; // tables.rt: handing out what was read

// The list that a file holds: its system has `p` equations in `q` unknowns.
#[derive(Clone, Copy)]
pub struct Read {
    pub p: usize,
    pub q: usize,
    pub found: Solutions,
    pub ending: u32,
}

// Reads a file: the coefficients go to the beginning of `coefs`, the rows to the beginning of `list`.
pub fn read_list(file: &[u8], coefs: &mut [i32], list: &mut [u32]) -> Result<Read, FileRefusal>
    ensures { read_outcome result coefs.new list.new ≡ read_file file.now coefs.old list.old }
{
    checking::check(file, coefs.len(), list.len())?;
    Ok(tables::hand_out(file, coefs, list))
}

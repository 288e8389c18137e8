// Files of lists (document 02, Job 5); library/raw.h says the same to C.
ghost use Rattle.std.specs.Prelude.{◌≡◌};
ghost use Rattle.list_spec.specs.Writing.{write_list};
ghost use Rattle.list_spec.specs.Reading.{read_file};
ghost use Rattle.list_file.specs.WriteAnswer.{list_of};
ghost use Rattle.c_list.specs.Codes.{write_told, read_told};

// Writes a list into `out`, which has the exact length.
#[unsafe(no_mangle)]
pub extern "C" fn dezgula_raw_write_list(
    p: usize,
    q: usize,
    coefs: &[i32],
    rows: &[u32],
    ending: u32,
    out: &mut [u8],
) -> u64
    ensures { (result, out.new) ≡ write_told (write_list (list_of p q coefs.now rows.now ending) out.old) }
{
    c_list::write_list(p, q, coefs, rows, ending, out)
}

// Reads a file: the coefficients go to the beginning of `coefs`, the rows to the beginning of `list`, and p, q, the row count and the ending to `words`.
#[unsafe(no_mangle)]
pub extern "C" fn dezgula_raw_read_list(
    file: &[u8],
    coefs: &mut [i32],
    list: &mut [u32],
    words: &mut [u64; 4],
) -> u64
    ensures { (result, (coefs.new, (list.new, words.new))) ≡
        read_told (read_file file.now coefs.old list.old) words.old }
{
    c_list::read_list(file, coefs, list, words)
}

// The calls on files with answers that are one number each, as C and Rust are told them: specs/Codes.antt.
#![tactic(auto)]

ghost use Rattle.std.specs.Prelude.{◌≡◌, ◌^◌, ◌<◌};
ghost use Rattle.list_spec.specs.Writing.{write_list};
ghost use Rattle.list_spec.specs.Reading.{read_file};
ghost use Rattle.list_file.specs.Paper.{number_of, values_of};
ghost use Rattle.list_file.specs.WriteAnswer.{list_of};
ghost use Rattle.c_list.specs.Codes.{refusal_code, write_told, read_told};

use list_file::words::FileRefusal;

// Writes a list into `out`, which has the exact length.
pub fn write_list(
    p: usize,
    q: usize,
    coefs: &[i32],
    rows: &[u32],
    ending: u32,
    out: &mut [u8],
) -> u64
    ensures { (result, out.new) ≡ write_told (write_list (list_of p q coefs.now rows.now ending) out.old) }
{
    match list_file::write::write_list(p, q, coefs, rows, ending, out) {
        Ok(()) => 106,
        Err(why) => refusal(why),
    }
}

// Reads a file: the coefficients go to the beginning of `coefs`, the rows to the beginning of `list`, and p, q, the row count and the ending to `words`.
pub fn read_list(file: &[u8], coefs: &mut [i32], list: &mut [u32], words: &mut [u64; 4]) -> u64
    ensures { (result, (coefs.new, (list.new, words.new))) ≡
        read_told (read_file file.now coefs.old list.old) words.old }
{
    match list_file::read::read_list(file, coefs, list) {
        Err(why) => refusal(why),
        Ok(read) => {
            words[0] = read.p as u64;
            words[1] = read.q as u64;
            words[2] = read.found.0 as u64;
            words[3] = read.ending as u64;
            107
        }
    }
}

fn refusal(why: FileRefusal) -> u64
    requires { refusal_code (number_of why) (values_of why) < 2 ^ 64 }
    ensures { result ≡ refusal_code (number_of why) (values_of why) }
{
    list_file::words::number_of(why) + 256 * list_file::words::value_of(why) as u64
}

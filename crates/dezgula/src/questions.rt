// Questions about the lists of larger maps, as the engine lists them: those of document 02 with the engine's own 1 and 2.
ghost use Rattle.std.specs.Prelude.{◌≡◌};
ghost use Rattle.definitions.specs.Highest.{locate_within};
ghost use Rattle.definitions.specs.Input.{input_of};
ghost use Rattle.definitions.specs.Reasons.{reason_within};
ghost use Rattle.definitions.specs.Refusals.{large_sizes};
ghost use Rattle.reader.specs.Answers.{located_number};
ghost use Rattle.reasons.specs.Numbers.{reason_told};
ghost use Rattle.multiples_spec.specs.Parts.{decomposed_within};
ghost use Rattle.multiples.specs.Answers.{parts_told};

// The highest place of a row of the list at or below a tuple.
#[unsafe(no_mangle)]
pub extern "C" fn dezgula_raw_engine_locate(
    list: &[u32],
    q: usize,
    found: usize,
    tuple: &[u32],
) -> u64
    ensures { result ≡ located_number (locate_within large_sizes.unknowns q list.now found tuple.now) }
{
    reader::lookups::locate_large_number(list, q, found, tuple)
}

// Why a tuple is not in the list: the reason with its place. By how much an equation is off goes to `amount`.
#[unsafe(no_mangle)]
pub extern "C" fn dezgula_raw_engine_reason(
    p: usize,
    q: usize,
    coefs: &[i32],
    list: &[u32],
    found: usize,
    tuple: &[u32],
    amount: &mut [i64; 1],
) -> u64
    ensures { (result, amount.new) ≡
        reason_told (reason_within large_sizes (input_of p q coefs.now) list.now found tuple.now) amount.old }
{
    reasons::told::reason_large(p, q, coefs, list, found, tuple, amount)
}

// What a solution is made of: how often each row is taken goes to `times`, and by how much an equation is off to `amount`.
#[unsafe(no_mangle)]
pub extern "C" fn dezgula_raw_engine_decompose(
    p: usize,
    q: usize,
    coefs: &[i32],
    list: &[u32],
    found: usize,
    tuple: &[u32],
    times: &mut [u32],
    amount: &mut [i64; 1],
) -> u64
    ensures { (result, (times.new, amount.new)) ≡
        parts_told (decomposed_within large_sizes (input_of p q coefs.now) list.now found tuple.now times.old)
        amount.old }
{
    multiples::decompose_large_number(p, q, coefs, list, found, tuple, times, amount)
}

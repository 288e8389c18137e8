// The run record as words of 64 bits: specs/Words.antt says which.
ghost use Rattle.std.specs.Prelude.{◌≡◌, ltb};
ghost use Rattle.calls.specs.Paper.{run_of};
ghost use Rattle.c_record.specs.Words.{height_if, kind_at, record_in, words_left};

use calls::{Record, RunKind, Solutions, Steps};

// The record that the words hold; another number of them is a record out of order.
pub fn read(words: &[u64]) -> Record
    ensures { result ≡ record_in words.now }
{
    if words.len() == 7 {
        let kind = words[3];
        return Record::of(
            kind_at(kind),
            height_at(kind, words[0] as usize),
            Solutions(words[1] as usize),
            Steps(words[2]),
            Solutions(words[4] as usize),
            Steps(words[5]),
            words[6],
        );
    }
    Record::new(65, Solutions(0), Steps(0))
}

// The kind of run of a number. It is no TryFrom: C lends any number, and each is read as some kind, as `kind_at` of specs/Words.antt says.
pub fn kind_at(n: u64) -> RunKind
    ensures { result ≡ kind_at n }
{
    match n {
        0 => RunKind::Plain,
        1 => RunKind::Capped,
        2 => RunKind::LowerPlain,
        4 => RunKind::Desks,
        _ => RunKind::LowerAbove,
    }
}

// The height, or one out of order where the number is no kind's.
fn height_at(kind: u64, height: usize) -> usize
    ensures { result ≡ height_if (ltb kind 5) height }
{
    if kind < 5 {
        return height;
    }
    65
}

// Puts a record back into its words; another number of them stays as it is, and so do words that were read as out of order.
pub fn write(words: &mut [u64], r: Record)
    ensures { words.new ≡ words_left words.old (run_of r) }
{
    if words.len() == 7 && r.height < 65 {
        words.copy_from_slice(&[
            r.height as u64,
            r.found.0 as u64,
            r.steps.0,
            calls::run_number(r.kind),
            r.found2.0 as u64,
            r.steps2.0,
            r.deepest,
        ]);
    }
}

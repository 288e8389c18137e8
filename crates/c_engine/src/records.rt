// The record as words of 64 bits, in the order of its fields.
ghost use Rattle.std.specs.Prelude.{◌≡◌};
ghost use Rattle.c_engine.specs.Words.{is_record, record_in, words_left};

use calls::{Solutions, Steps};
use engine_beside::Record;

// More steps than any run has taken.
const PAST_LIMIT: u64 = calls::STEP_LIMIT + 1;

// Whether the words are a record.
pub fn fits(words: &[u64]) -> bool
    ensures { result ≡ is_record words.now }
{
    if words.len() == 11 {
        return words[0] < 4294967296;
    }
    false
}

// The record that the words hold; others are a record out of order.
pub fn read(words: &[u64]) -> Record
    ensures { result ≡ record_in words.now }
{
    if words.len() == 11 {
        let done = words[0];
        if done < 4294967296 {
            return Record {
                done: done as u32,
                equation: words[1] as usize,
                fresh: words[2] as usize,
                count: Solutions(words[3] as usize),
                rows: words[4] as usize,
                taken: words[5] as usize,
                degree: words[6],
                upper: words[7] as usize,
                lower: words[8] as usize,
                steps: Steps(words[9]),
                cap: words[10],
            };
        }
    }
    Record {
        done: 0,
        equation: 0,
        fresh: 0,
        count: Solutions(0),
        rows: 0,
        taken: 0,
        degree: 0,
        upper: 0,
        lower: 0,
        steps: Steps(PAST_LIMIT),
        cap: 0,
    }
}

// Puts a record back into its words; others stay as they are.
pub fn write(words: &mut [u64], r: Record)
    ensures { words.new ≡ words_left words.old r }
{
    if fits(words) {
        words[0] = r.done as u64;
        words[1] = r.equation as u64;
        words[2] = r.fresh as u64;
        words[3] = r.count.0 as u64;
        words[4] = r.rows as u64;
        words[5] = r.taken as u64;
        words[6] = r.degree;
        words[7] = r.upper as u64;
        words[8] = r.lower as u64;
        words[9] = r.steps.0;
        words[10] = r.cap;
    }
}

// What the words hold.
ghost use Rattle.std.specs.Prelude.{◌≡◌, ◌≤◌, get_or};
ghost use Rattle.dispatch.specs.Filling.{Filled};
ghost use Rattle.dispatch.specs.Form.{no_record, no_share};
ghost use Rattle.c_dispatch.specs.Words.{last_in, record_in, run_at, share_at, share_in};

use c_record::words;
use calls::{Record, Solutions, Steps};
use dispatch::types::{Part, Share};
use std::array;

// A word, and 0 past the end.
fn word(words: &[u64], k: usize) -> u64
    ensures { result ≡ get_or words.now k 0 }
{
    words.get(k).copied().unwrap_or(0)
}

// The share whose words begin at a place.
fn share(words: &[u64], base: usize) -> Share
    requires { base ≤ 56 }
    ensures { result ≡ share_at words.now base }
{
    let coefs = Part {
        start: word(words, base + 2) as usize,
        size: word(words, base + 3) as usize,
    };
    let stack = Part {
        start: word(words, base + 4) as usize,
        size: word(words, base + 5) as usize,
    };
    let list = Part {
        start: word(words, base + 6) as usize,
        size: word(words, base + 7) as usize,
    };
    Share {
        p: word(words, base) as usize,
        q: word(words, base + 1) as usize,
        coefs,
        stack,
        list,
    }
}

// The shares of eight runs.
pub fn shares(words: &[u64]) -> [Share; 8]
    ensures { Filled 8 (share_in words.now) no_share result 8 }
{
    array::from_fn(|i| share(words, 8 * i))
}

// The run record whose words begin at a place.
fn record(words: &[u64], base: usize) -> Record
    requires { base ≤ 65 }
    ensures { result ≡ run_at words.now base }
{
    Record::of(
        words::kind_at(word(words, base + 3)),
        word(words, base) as usize,
        Solutions(word(words, base + 1) as usize),
        Steps(word(words, base + 2)),
        Solutions(word(words, base + 4) as usize),
        Steps(word(words, base + 5)),
        word(words, base + 6),
    )
}

// The records of eight runs.
pub fn records(words: &[u64]) -> [Record; 8]
    ensures { Filled 8 (record_in words.now) no_record result 8 }
{
    array::from_fn(|i| record(words, 2 + 9 * i))
}

// The number of the run served last.
pub fn last(words: &[u64]) -> usize
    ensures { result ≡ last_in words.now }
{
    if words.len() == 74 {
        return words[0] as usize;
    }
    9
}

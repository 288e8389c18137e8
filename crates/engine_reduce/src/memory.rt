// What is remembered of rows that dropped sums, for the time of one call: for each sign of a sum up to 256 of them with their words, those that dropped
// more ahead; and by the remainder of a word the row that was last appended or found with it. None of it is trusted.
//   held        the words of the droppers, 256 for each sign
//   places      their rows, 256 for each sign; from 768 on how many there are of each sign, from 772 on whose turn it is to go; from 1024 on the rows
//               by remainder
ghost use Rattle.std.specs.Prelude.{◌≡◌, ◌+◌, ◌*◌, ◌≤◌, ◌<◌, MatchOption};

use engine_beside::words as fields;

// How many rows dropped sums of this sign.
pub fn count(places: &[u32; 66560], sign: usize) -> usize
    requires { sign < 3 }
    ensures { result ≤ 256 }
{
    number(places[768 + sign]).min(256)
}

// The row remembered at place k.
pub fn place(places: &[u32; 66560], k: usize) -> usize
    requires { k < 66560 }
{
    number(places[k])
}

// The place of the row that is remembered by the remainder of a word.
pub fn slot(word: u64) -> usize
    ensures { result < 66560 }
{
    1024 + (word % 65521) as usize
}

// The first of the droppers at places `from` to `past` - 1 whose word lets it drop a sum of this word.
pub fn next_held(held: &[u64; 768], from: usize, past: usize, word: u64) -> Option<usize>
    requires { (from ≤ past) × (past ≤ 768) }
    ensures { MatchOption result (Unit {0}) (λ k. (from ≤ k) × (k < past)) }
{
    for k in from..past {
        if may_drop(held[k], word) {
            return Some(k);
        }
    }
    None
}

// The dropper at place k changes places with the one halfway to the first.
pub fn advance(held: &mut [u64; 768], places: &mut [u32; 66560], from: usize, k: usize)
    requires { (from ≤ k) × (k < 768) }
{
    let to = from + (k - from) / 2;
    held.swap(to, k);
    places.swap(to, k);
}

// A row that dropped a sum: it comes last; where there are 256, in the place of one of the later half, each in its turn.
pub fn remember(
    held: &mut [u64; 768],
    places: &mut [u32; 66560],
    sign: usize,
    row: usize,
    word: u64,
)
    requires { (sign < 3) × (row < 4294967296) }
{
    let n = count(places, sign);
    places[slot(word)] = row as u32;
    if n < 256 {
        places[768 + sign] = n as u32 + 1;
        held[sign * 256 + n] = word;
        places[sign * 256 + n] = row as u32;
        return;
    }
    let turn = places[772 + sign] % 128;
    let k = sign * 256 + 128 + number(turn);
    places[772 + sign] = turn + 1;
    held[k] = word;
    places[k] = row as u32;
}

// A row appended: remembered by the remainder of its word.
pub fn appended(places: &mut [u32; 66560], row: usize, word: u64)
    requires { row < 4294967296 }
{
    places[slot(word)] = row as u32;
}

fn number(x: u32) -> usize
    ensures { result ≡ x }
{
    x as usize
}

// Whether the row of a word that is held may lie at or below a sum of another word.
pub fn may_drop(held: u64, word: u64) -> bool {
    fields::fits(held & 0x7777777777777777, word)
}

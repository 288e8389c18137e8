// A call of the dispatcher on words of 64 bits (specs/Words.antt), for callers in other languages.
#![tactic(auto)]

ghost use Rattle.std.specs.Prelude.{◌≡◌};
ghost use Rattle.c_dispatch.specs.Words.{dispatch_words};

mod read; // read.rt: what the words hold
mod write; // write.rt: what is told

// A call: the words of the runs' shares are read, those of the dispatcher's record are read and written.
pub fn dispatch(
    count: usize,
    quantum: u64,
    turns: u64,
    shares: &[u64],
    coefs: &[i32],
    stack: &mut [u32],
    list: &mut [u32],
    round: &mut [u64],
) -> u64
    ensures { (result, (stack.new, (list.new, round.new))) ≡
        dispatch_words count quantum turns shares.now coefs.now stack.old list.old round.old }
{
    let all = read::shares(shares);
    let records = read::records(round);
    let last = read::last(round);
    let d = dispatch::dispatch(
        count, all, coefs, stack, list, records, last, quantum, turns,
    );
    write::told(round, d)
}

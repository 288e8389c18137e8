// Numbers in texts: reading them, and writing into space that is lent.
#![tactic(auto)]

ghost use Rattle.std.specs.Prelude.{◌≡◌};
ghost use Rattle.texts.specs.Decimals.{separator};

pub mod number; // number.rt: one number of a text
pub mod put; // put.rt: writing into a buffer
pub mod rows; // rows.rt: numbers that were read, into lent space

// What stands after a number when `left` numbers of its line follow.
pub fn separator_after(left: usize) -> u8
    ensures { result ≡ separator left }
{
    if left == 0 { b'\n' } else { b' ' }
}

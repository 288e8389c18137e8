// An answer as one number, for callers in other languages: specs/Codes.antt.
ghost use Rattle.std.specs.Prelude.{◌≡◌, ◌<◌};
ghost use Rattle.calls.specs.Paper.{number_of, values_of};
ghost use Rattle.calls.specs.Codes.{code, refusal_code};

use crate::Refusal;

// The largest place that 56 bits hold.
const LARGEST_PLACE: usize = 72057594037927935;

// A number, with a place above its 8 bits.
pub fn coded(number: u64, place: usize) -> u64
    requires { number < 256 }
    ensures { result ≡ code number place }
{
    number + 256 * place.min(LARGEST_PLACE) as u64
}

// A refusal, with the place that it comes with.
pub fn refusal(why: Refusal) -> u64
    ensures { result ≡ refusal_code (number_of why) (values_of why) }
{
    coded(crate::number_of(why), crate::value_of(why))
}

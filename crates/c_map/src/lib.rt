// Reading the text form of a map, with an answer that is one number and two words beside it: specs/Words.antt.
#![tactic(auto)]

ghost use Rattle.std.specs.Prelude.{◌≡◌, ◌^◌, ◌<◌};
ghost use Rattle.calls.specs.Paper.{value};
ghost use Rattle.map_text.specs.Answer.{number_of, values_of};
ghost use Rattle.c_map.specs.Words.{read_words};
ghost use Rattle.c_record.specs.Codes.{refusal_code};

use map_text::TextRefusal;

// Reads the map that `text` writes: its coefficients go to the beginning of `coefs`, row by row, p and q into the words. A refusal writes nothing.
pub fn read_map(text: &[u8], coefs: &mut [i32; 128], words: &mut [u64; 2]) -> u64
    ensures { (result, (coefs.new, words.new)) ≡ read_words text.now coefs.old words.old }
{
    match map_text::read_map(text, coefs) {
        Ok(map) => {
            words[0] = map.p as u64;
            words[1] = map.q as u64;
            108
        }
        Err(why) => refusal(why),
    }
}

// A refusal as one number.
fn refusal(why: TextRefusal) -> u64
    requires { refusal_code (number_of why) (values_of why) < 2 ^ 64 }
    ensures { result ≡ refusal_code (number_of why) (values_of why) }
{
    number_of(why) + 256 * value_of(why) as u64
}

fn number_of(why: TextRefusal) -> u64
    ensures { result ≡ number_of why }
{
    match why {
        TextRefusal::Form(_) => 9,
        TextRefusal::Length => 10,
        TextRefusal::Equations => 1,
        TextRefusal::Unknowns => 2,
        TextRefusal::Coefficient(_) => 7,
    }
}

fn value_of(why: TextRefusal) -> usize
    ensures { result ≡ value (values_of why) }
{
    match why {
        TextRefusal::Form(line) => line,
        TextRefusal::Length => 0,
        TextRefusal::Equations => 0,
        TextRefusal::Unknowns => 0,
        TextRefusal::Coefficient(place) => place,
    }
}

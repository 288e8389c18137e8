// An answer as one number.
ghost use Rattle.std.specs.Prelude.{◌≡◌, ◌^◌, ◌<◌};
ghost use Rattle.calls.specs.Paper.{number_of, values_of, answer_of};
ghost use Rattle.c_record.specs.Codes.{code, refusal_code};

use calls::{Answer, Refusal};

pub fn number(answer: Answer) -> u64
    requires { code (answer_of answer) < 2 ^ 64 }
    ensures { result ≡ code (answer_of answer) }
{
    match answer {
        Answer::Started => 100,
        Answer::Complete => 0,
        Answer::Paused => 101,
        Answer::Refused(why) => refusal(why),
    }
}

pub fn refusal(why: Refusal) -> u64
    requires { refusal_code (number_of why) (values_of why) < 2 ^ 64 }
    ensures { result ≡ refusal_code (number_of why) (values_of why) }
{
    calls::number_of(why) + 256 * calls::value_of(why) as u64
}

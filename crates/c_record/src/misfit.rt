// What a plain start is told whose words are no record: a continuing call's refusal. Nothing is written.
ghost use Rattle.std.specs.Prelude.{◌≡◌, ◌≢◌, length};
ghost use Rattle.c_record.specs.Words.{resume_words};

use crate::words;

pub fn misfit(p: usize, q: usize, coefs: &[i32], stack: &[u32], list: &[u32], run: &[u64]) -> u64
    requires { length run.now ≢ 7 }
    ensures { (result, (stack.now, (list.now, run.now))) ≡
        resume_words 0 p q coefs.now stack.now list.now run.now }
{
    let r = words::read(run);
    match checks::check_resume(p, q, coefs, stack, list, r, calls::COMPONENT_LIMIT) {
        Err(why) => crate::answers::refusal(why),
        Ok(()) => 6,
    }
}

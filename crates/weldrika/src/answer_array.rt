// An answer as three numbers.
ghost use Rattle.std.specs.Prelude.{◌≡◌, length};
ghost use Rattle.weldrika.specs.AnswerArray.{answer_in};

use pool::Answer;

// Writes the answer to an array of three.
pub(crate) fn put_answer(out: &mut [u32], a: Answer)
    requires { length out.old ≡ 3 }
    ensures { answer_in out.new ≡ a }
{
    out[0] = a.code;
    out[1] = a.first;
    out[2] = a.second;
}

// A call on bytes in the place of one on u32 tags: it is lent the tags narrowed into a local array, and as many of the values.
// Arrays of different lengths are refused.
ghost use Rattle.tag_layouts.specs.OnBytes.{Reads, Writes, Fits};

use normal_form::call::Listed;
use pool::description::zero_from;
use pool::limits::CELLS;
use pool::{Answer, Refusal};
use tag_layouts::narrowing::{narrow_into, write_back};

// What a call that reads alone answers.
pub(crate) fn read<F: FnMut(&[u8], &[u32]) -> Answer>(
    tags: &[u32],
    values: &[u32],
    call: &mut F,
) -> Answer
    requires { F.IsAlwaysCallable call.old }
    ensures { Reads F.FnMut call.old tags.now values.now result call.new }
{
    if tags.len() != values.len() {
        return Answer::from(Refusal::BadArrays);
    }
    let mut bytes = [0u8; CELLS];
    let k = narrow_into(tags, &mut bytes);
    call(&bytes[..k], &values[..k])
}

// What a call that may write says. What it leaves is written back from place `from` on, unless it answers 30.
pub(crate) fn write<F: FnMut(&mut [u8], &mut [u32]) -> Listed>(
    tags: &mut [u32],
    values: &mut [u32],
    from: Option<usize>,
    call: &mut F,
) -> Listed
    requires callable { F.IsAlwaysCallable call.old }
    requires fits { Fits F.FnMut call.old from tags.old values.old }
    ensures { Writes F.FnMut call.old from tags.old values.old result call.new tags.new values.new }
{
    if tags.len() != values.len() {
        return Listed {
            answer: Answer::from(Refusal::BadArrays),
            count: 0,
        };
    }
    let mut bytes = [0u8; CELLS];
    let k = narrow_into(tags, &mut bytes);
    let listed = call(&mut bytes[..k], &mut values[..k]);
    let Some(n) = from else {
        return listed;
    };
    if listed.answer.code == 30 {
        return listed;
    }
    write_back(tags, &bytes[..k], n);
    zero_from(values, k);
    listed
}

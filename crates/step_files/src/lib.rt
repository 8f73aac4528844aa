// A step file from its bytes to the lines that answer it.
#![tactic(auto)]

pub mod answer_lines;
pub mod inputs;
mod lines;
pub mod words;

ghost use Rattle.step_files.specs.StepFile.{Answered};

use crate::answer_lines::put_line;
use crate::words::word;
use lines::answer_steps;
use pool::limits::CELLS;
use pool::{Answer, Refusal};

// Writes the text that answers the file under the table of sort rules in use to the front of out, and says how many bytes that is. Nothing
// is written where out has under 11,264 bytes.
pub fn answer_file(input: &[u8], table: &[u32], out: &mut [u8]) -> usize
    ensures { Answered input.now table.now out.old result out.new }
{
    if out.len() < 11264 {
        return 0;
    }
    if input.len() < 8 {
        return put_line(out, 0, 0, Answer::from(Refusal::IllFormed(0)));
    }
    let n = word(input, 0) as usize;
    let steps = word(input, 1);
    if CELLS < n {
        return put_line(out, 0, 0, Answer::from(Refusal::BadArrays));
    }
    if 256 < steps {
        return put_line(out, 0, 0, Answer::from(Refusal::BadArrays));
    }
    if input.len() != 4 * (2 + 2 * n + 2 * steps as usize) {
        return put_line(out, 0, 0, Answer::from(Refusal::IllFormed(0)));
    }
    answer_steps(input, table, n, steps, out)
}

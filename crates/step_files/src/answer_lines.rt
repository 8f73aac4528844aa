// Lines of numbers in decimal, written into a lent array.
ghost use Rattle.std.specs.Prelude.{◌+◌, ◌≤◌, length};
ghost use Rattle.step_files.specs.Decimal.{decimal};
ghost use Rattle.step_files.specs.Text.{field, line, LinePut};

use pool::Answer;

pub fn put_number(out: &mut [u8], at: usize, n: u32) -> usize
    requires { at + 10 ≤ length out.old }
    ensures { LinePut (decimal n) 10 at out.old result out.new }
{
    let mut digits = [0u8; 20];
    let k = io::decimal(u64::from(n), &mut digits);
    out[at..at + k].copy_from_slice(&digits[..k]);
    at + k
}

// A number and the byte after it.
fn put_field(out: &mut [u8], at: usize, n: u32, after: u8) -> usize
    requires { at + 11 ≤ length out.old }
    ensures { LinePut (field n after) 11 at out.old result out.new }
{
    let end = put_number(out, at, n);
    out[end] = after;
    end + 1
}

// The line of a step's number and answer.
pub fn put_line(out: &mut [u8], at: usize, number: u32, answer: Answer) -> usize
    requires { at + 44 ≤ length out.old }
    ensures { LinePut (line number answer) 44 at out.old result out.new }
{
    let code = put_field(out, at, number, 32);
    let first = put_field(out, code, answer.code, 32);
    let second = put_field(out, first, answer.first, 32);
    put_field(out, second, answer.second, 10)
}

// What is printed: lines of numbers in decimal, one space between, gathered in a text that is written when it is full.
ghost use Rattle.std.specs.Prelude.{◌+◌, ◌≤◌, length, IfOk};

use crate::layouts::{Layout, Lent};
use pool::Answer;
use std::io;
use std::io::Write;
use step_files::answer_lines::put_number;

pub fn bad_file<W: Write>(out: &mut W) -> io::Result<()> {
    out.write_all(b"bad file\n")
}

// The line before what a file gives.
pub fn name_line<W: Write>(name: &[u8], out: &mut W) -> io::Result<()> {
    out.write_all(name)?;
    out.write_all(b":\n")
}

// Writes the text that ends at `end`.
fn write_text<W: Write>(text: &[u8], end: usize, out: &mut W) -> io::Result<()>
    requires { end ≤ length text.now }
{
    out.write_all(&text[..end])
}

// Where a space and a number find room after a text that ends at `at`: where they find none the text is written, and the next begins.
fn room<W: Write>(text: &[u8], at: usize, out: &mut W) -> io::Result<usize>
    requires { (at ≤ length text.now) × (11 ≤ length text.now) }
    ensures { IfOk result (λ start. start + 11 ≤ length text.now) }
{
    if 11 <= text.len() - at {
        return Ok(at);
    }
    write_text(text, at, out)?;
    Ok(0)
}

// Adds a space and the number to a text that ends at `at`, and answers where it then ends.
fn put<W: Write>(text: &mut [u8], at: usize, n: u32, out: &mut W) -> io::Result<usize>
    requires { (at ≤ length text.old) × (11 ≤ length text.old) }
    ensures { IfOk result (λ end. end ≤ length text.old) }
{
    let start = room(text, at, out)?;
    let end = put_number(text, start + 1, n);
    text[start] = 32;
    Ok(end)
}

fn put_numbers<T: Copy + Into<u32>, W: Write>(
    text: &mut [u8],
    numbers: &[T],
    out: &mut W,
) -> io::Result<usize>
    requires { 11 ≤ length text.old }
    ensures { IfOk result (λ end. end ≤ length text.old) }
{
    let mut end = 0;
    for number in numbers {
        end = put(text, end, (*number).into(), out)?;
    }
    Ok(end)
}

// A line with a name and numbers.
pub fn line<T: Copy + Into<u32>, W: Write>(
    name: &[u8],
    numbers: &[T],
    out: &mut W,
) -> io::Result<()> {
    out.write_all(name)?;
    let mut text = [0u8; 4096];
    let end = put_numbers(&mut text, numbers, out)?;
    write_text(&text, end, out)?;
    out.write_all(b"\n")
}

// The answer, and the clause list's new count, which is 0 with every other call.
pub fn answer_line<W: Write>(a: Answer, count: u32, out: &mut W) -> io::Result<()> {
    let mut code = [0u8; 10];
    let end = put_number(&mut code, 0, a.code);
    write_text(&code, end, out)?;
    let numbers = [a.first, a.second, count];
    line(b"", &numbers, out)
}

// The answer of a call and the pool that it leaves.
pub fn pool_after<T: Layout, W: Write>(
    a: Answer,
    count: u32,
    pool: &Lent<T>,
    out: &mut W,
) -> io::Result<()> {
    answer_line(a, count, out)?;
    line(b"tags", pool.tags, out)?;
    line(b"values", pool.values, out)
}

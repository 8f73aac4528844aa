// Answers a step file on standard input, or the step files that the arguments name, each after a line with its name. The name `-`
// is standard input.
#![tactic(auto)]

use sort_table::table::built_in;
use std::io;
use std::io::{Eprint, Input, Read, Write};
use std::rt::{Env, Files};
use step_files::answer_file;
use step_files::inputs::{argument, open, read_full};

// One byte more than the longest step file, 4 * (2 + 2 * 8,192 + 2 * 256): a longer one has a wrong length too.
const FILE_BYTES: usize = 67593;

// The longest text that answers one: 256 lines of at most 44 bytes.
const TEXT_BYTES: usize = 11264;

fn answer<R: Read, W: Write>(input: &mut R, out: &mut W) -> io::Result<()> {
    let mut file = [0u8; FILE_BYTES];
    let n = read_full(input, &mut file);
    let table = built_in();
    let mut text = [0u8; TEXT_BYTES];
    let end = answer_file(&file[..n], &table, &mut text);
    out.write_all(&text[..end])
}

fn is_standard_input(path: &[u8]) -> bool {
    path == b"-".as_slice()
}

// The step file that an argument names.
fn answer_named<R: Files + Input + Eprint, W: Write>(
    rt: &R,
    path: &[u8],
    out: &mut W,
) -> io::Result<()> {
    out.write_all(path)?;
    out.write_all(b":\n")?;
    if is_standard_input(path) {
        return answer(&mut rt.reader(), out);
    }
    match open(rt, path) {
        Some(mut file) => answer(&mut file, out),
        None => Ok(()),
    }
}

fn answer_all<R: Env + Files + Input + Eprint, W: Write>(rt: &R, out: &mut W) -> io::Result<()> {
    let mut path = [0u8; 4096];
    for i in 1..usize::MAX {
        let Some(length) = argument(rt, i, &mut path) else {
            break;
        };
        answer_named(rt, &path[..length], out)?;
    }
    Ok(())
}

fn main(rt: HostRuntime) -> io::Result<()> {
    let mut out = rt.stdout();
    let mut path = [0u8; 4096];
    if argument(&rt, 1, &mut path).is_none() {
        return answer(&mut rt.reader(), &mut out);
    }
    answer_all(&rt, &mut out)
}

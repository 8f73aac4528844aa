// A collection: many call files in one. u32 little-endian words and bytes: the count of calls; then for each the length of its name,
// the name, the length of its call file and the file.
ghost use Rattle.std.specs.Prelude.{◌≤◌, length};

use crate::arrays::FILE_BYTES;
use crate::one_call::run;
use crate::report::{bad_file, name_line};
use std::io;
use std::io::{Eprint, Read, Write};
use std::rt::Files;
use step_files::inputs::{open, read_full};
use step_files::words::word;

pub fn is_collection(path: &[u8]) -> bool {
    path.ends_with(b".calls")
}

// Why a replay stops: the collection ends too early or goes on after its last call, or names a file by too many bytes; or nothing can
// be printed.
enum Stop {
    BadCollection,
    Output(io::Error),
}

impl From<io::Error> for Stop {
    fn from(error: io::Error) -> Stop {
        Stop::Output(error)
    }
}

// Reads n bytes more of the file to the front of buf.
fn fill<R: Read>(file: &mut R, buf: &mut [u8], n: usize) -> Result<(), Stop>
    requires { n ≤ length buf.old }
{
    if read_full(file, &mut buf[..n]) < n {
        return Err(Stop::BadCollection);
    }
    Ok(())
}

// A count or a length.
fn read_number<R: Read>(file: &mut R) -> Result<usize, Stop> {
    let mut bytes = [0u8; 4];
    fill(file, &mut bytes, 4)?;
    Ok(word(&bytes, 0) as usize)
}

// Reads and leaves so many bytes more of the file.
fn skip<R: Read>(file: &mut R, size: usize) -> Result<(), Stop> {
    let mut space = [0u8; 4096];
    for _ in 0..size / 4096 {
        fill(file, &mut space, 4096)?;
    }
    fill(file, &mut space, size % 4096)
}

// Prints what the call file of that size gives, after its name. Of one that is longer than any call file the start is enough.
fn replay_file<R: Read, W: Write>(
    file: &mut R,
    name: &[u8],
    size: usize,
    out: &mut W,
) -> Result<(), Stop> {
    let mut bytes = [0u8; FILE_BYTES];
    let kept = size.min(FILE_BYTES);
    fill(file, &mut bytes, kept)?;
    skip(file, size - kept)?;
    name_line(name, out)?;
    run(&bytes[..kept], out)?;
    Ok(())
}

fn replay_call<R: Read, W: Write>(file: &mut R, out: &mut W) -> Result<(), Stop> {
    let length = read_number(file)?;
    if 4096 < length {
        return Err(Stop::BadCollection);
    }
    let mut name = [0u8; 4096];
    fill(file, &mut name, length)?;
    let size = read_number(file)?;
    replay_file(file, &name[..length], size, out)
}

// The calls of the collection, which ends with the last of them.
fn replay_calls<R: Read, W: Write>(file: &mut R, out: &mut W) -> Result<(), Stop> {
    let count = read_number(file)?;
    for _ in 0..count {
        replay_call(file, out)?;
    }
    let mut more = [0u8; 1];
    if read_full(file, &mut more) != 0 {
        return Err(Stop::BadCollection);
    }
    Ok(())
}

fn bad_collection<W: Write>(path: &[u8], out: &mut W) -> io::Result<()> {
    name_line(path, out)?;
    bad_file(out)
}

// The calls of the collection, each after a line with its name. What is wrong with the collection is said after them, under its own name.
pub fn replay_collection<R: Files + Eprint, W: Write>(
    rt: &R,
    path: &[u8],
    out: &mut W,
) -> io::Result<()> {
    let Some(mut file) = open(rt, path) else {
        return bad_collection(path, out);
    };
    match replay_calls(&mut file, out) {
        Ok(()) => Ok(()),
        Err(Stop::BadCollection) => bad_collection(path, out),
        Err(Stop::Output(error)) => Err(error),
    }
}

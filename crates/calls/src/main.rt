// The check of a step and the public calls of the pool and of normal forms from a shell: a call file on standard input, or the call
// files that the arguments name, each after a line with its name. An argument that ends in `.calls` names a collection of them.
#![tactic(auto)]

mod arrays;
mod call_files;
mod collections;
mod layouts;
mod one_call;
mod pool_calls;
mod report;
mod table_call;

use crate::arrays::FILE_BYTES;
use crate::collections::{is_collection, replay_collection};
use crate::one_call::run;
use crate::report::{bad_file, name_line};
use std::io;
use std::io::{Eprint, Read, Write};
use std::rt::{Env, Files};
use step_files::inputs::{argument, open, read_full};

fn run_file<R: Read, W: Write>(input: &mut R, out: &mut W) -> io::Result<()> {
    let mut bytes = [0u8; FILE_BYTES];
    let n = read_full(input, &mut bytes);
    run(&bytes[..n], out)
}

fn replay_named<R: Files + Eprint, W: Write>(rt: &R, path: &[u8], out: &mut W) -> io::Result<()> {
    if is_collection(path) {
        return replay_collection(rt, path, out);
    }
    name_line(path, out)?;
    match open(rt, path) {
        Some(mut file) => run_file(&mut file, out),
        None => bad_file(out),
    }
}

// The files that the arguments name.
fn replay<R: Env + Files + Eprint, W: Write>(rt: &R, out: &mut W) -> io::Result<()> {
    let mut path = [0u8; 4096];
    for i in 1..usize::MAX {
        let Some(length) = argument(rt, i, &mut path) else {
            break;
        };
        replay_named(rt, &path[..length], out)?;
    }
    Ok(())
}

fn main(rt: HostRuntime) -> io::Result<()> {
    let mut out = rt.stdout();
    let mut path = [0u8; 4096];
    if argument(&rt, 1, &mut path).is_none() {
        return run_file(&mut rt.reader(), &mut out);
    }
    replay(&rt, &mut out)
}

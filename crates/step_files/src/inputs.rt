// What a program reads: the arguments it was started with, the files that they name, and the bytes of a file.
ghost use Rattle.std.specs.Prelude.{◌≤◌, length, take, IfSome};
ghost use Rattle.std.specs.Io.KnownBytes.{Consumes};

use std::env::FillError;
use std::fs::File;
use std::io::{Eprint, Read};
use std::rt::{Env, Files};

// The length of argument i, which stands at the front of buf. One that is longer than buf counts as empty.
pub fn argument<R: Env>(rt: &R, i: usize, buf: &mut [u8]) -> Option<usize>
    ensures { IfSome result (λ n. n ≤ length buf.new) }
{
    match rt.arg(i, buf) {
        Ok(n) => Some(n),
        Err(FillError::TooLong) => Some(0),
        Err(FillError::NotPresent) => None,
    }
}

// Opens the file that path names. Where it does not open, standard error says why.
pub fn open<R: Files + Eprint>(rt: &R, path: &[u8]) -> Option<R::File> {
    let Ok(name) = std::str::from_utf8(path) else {
        let shown = path.escape_ascii();
        let _ = rt.eprintln(format_args!("{shown}: the name is not UTF-8"));
        return None;
    };
    match File::open(rt, name) {
        Ok(file) => Some(file),
        Err(error) => {
            let _ = rt.eprintln(format_args!("{name}: {error}"));
            None
        }
    }
}

// Reads until buf is full, the input ends or a read fails, and says how many bytes then stand at the front of buf.
pub fn read_full<R: Read>(input: &mut R, buf: &mut [u8]) -> usize
    ensures in_bounds { result ≤ length buf.new }
    ensures bytes { Consumes (R.remaining input.old) (R.remaining input.new) (take result buf.new) }
{
    let mut done = 0;
    // Kept: each turn moves on by as many bytes as its read gave, so no range and no iterator fits.
    while done < buf.len() {
        let Ok(n) = input.read(&mut buf[done..]) else {
            break;
        };
        if n == 0 {
            break;
        }
        done += n;
    }
    done
}

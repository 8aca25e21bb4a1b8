// The session program: reads records from standard input, or from the file that its argument names, and writes the
// lines of the session. All that matters is in `transcript::session`; this only reads and writes. What can't be read or
// written is said on standard error, and then no line of a session is made up.
#![tactic(auto)]

use std::env::{Env, FillError};
use std::fs::{File, Files};
use std::io::Read;
use std::{io, str};
use transcript::session;

// Reads until the bytes are full or the input ends, and answers how many bytes there were.
fn read_input<R: Read>(from: &mut R, bytes: &mut [u8]) -> io::Result<usize> {
    let mut done = 0;
    // A while: each read decides where the next one starts.
    while done < bytes.len() {
        let n = from.read(&mut bytes[done..])?;
        if n == 0 {
            return Ok(done);
        }
        done += n;
    }
    Ok(done)
}

// The first n bytes; all of them where there are fewer.
fn first(bytes: &[u8], n: usize) -> &[u8] {
    &bytes[..n.min(bytes.len())]
}

// Writes a text.
fn print(rt: &(impl Print + Eprint), text: &[u8]) {
    if let Err(error) = rt.write_all(text) {
        let _ = eprintln!(rt; "output: {error}");
    }
}

// Runs the session of some bytes.
fn run(rt: &(impl Print + Eprint), input: &[u8]) {
    let mut output = [0u8; transcript::ENOUGH];
    if let Ok(n) = session(input, &mut output) {
        print(rt, first(&output, n));
    }
}

// Runs the session of what can be read from a stream. One byte more than a session may have is read, so that input over
// the bound is seen; the output is what always suffices.
fn run_from<R: Read>(rt: &(impl Print + Eprint), from: &mut R) {
    let mut input = [0u8; 65537];
    match read_input(from, &mut input) {
        Ok(n) => run(rt, first(&input, n)),
        Err(error) => {
            let _ = eprintln!(rt; "input: {error}");
        }
    }
}

// Runs the session of a file.
fn run_file(rt: &(impl Files + Print + Eprint), path: &str) {
    match File::open(rt, path) {
        Ok(mut file) => run_from(rt, &mut file),
        Err(error) => {
            let _ = eprintln!(rt; "{path}: {error}");
        }
    }
}

// The file that the argument names; standard input where there is none.
fn main(rt: HostRuntime) {
    let mut path = [0u8; 4096];
    match rt.arg(1, &mut path) {
        Ok(length) => match str::from_utf8(first(&path, length)) {
            Ok(text) => run_file(&rt, text),
            Err(error) => {
                let _ = eprintln!(rt; "path: {error}");
            }
        },
        Err(FillError::TooLong) => {
            let _ = eprintln!(rt; "path: File name too long");
        }
        Err(FillError::NotPresent) => run_from(&rt, &mut rt.stdin()),
    }
}

// Books that a program's arguments name. A file that is missing or cannot be read gets a line on standard error; a buffer with one byte
// more than a book may have shows that a longer file is too long. No memory is allocated.

#![tactic(auto)]

ghost use Rattle.std.specs.Prelude.{length};
ghost use Rattle.std.specs.Io.{ReadsAtMost};
ghost use Rattle.files.specs.Loading.{Held};

use std::env::FillError;
use std::fmt::Display;
use std::fs::File;
use std::io;
use std::io::{ErrorKind, Read};
use std::rt::Env;

// Writes a line to standard error: what failed, a colon and why. Where even that fails, nothing is left to say.
fn fail(rt: &HostRuntime, what: &[u8], why: impl Display + Drop) {
    let _ = rt.stderr().write_all(what);
    let _ = eprintln!(rt; ": {why}");
}

// What the system says of an argument that there is none of, or none that the buffer has room for.
fn reason(error: FillError) -> &'static str {
    match error {
        FillError::NotPresent => "Invalid argument",
        FillError::TooLong => "File name too long",
    }
}

// Opens a file to read. A name is text.
fn open(rt: &HostRuntime, path: &[u8]) -> io::Result<File> {
    match std::str::from_utf8(path) {
        Ok(name) => File::open(rt, name),
        Err(_) => Err(io::Error::new(ErrorKind::InvalidInput, "the name is not UTF-8")),
    }
}

// Reads from a file, and sees by one more read whether it failed on the way.
fn filled(file: &mut File, book: &mut [u8]) -> io::Result<usize>
    ensures { ReadsAtMost result book.new }
{
    let n = streams::read_full(file, book)?;
    let mut more = [0u8; 1];
    file.read(&mut more)?;
    Ok(n)
}

// How many bytes a file gave. Where it failed, standard error says so.
fn take(rt: &HostRuntime, file: &mut File, path: &[u8], book: &mut [u8]) -> Option<usize>
    ensures { Held result (length book.new) }
{
    match filled(file, book) {
        Ok(n) => Some(n),
        Err(error) => {
            fail(rt, path, error);
            None
        }
    }
}

// Reads the book that an argument names, and says how many bytes it has. Where it cannot be read, standard error has said why; where there
// is no such argument, how the program is called.
pub fn load(rt: &HostRuntime, argument: usize, usage: &[u8], book: &mut [u8]) -> Option<usize>
    ensures { Held result (length book.new) }
{
    let mut path = [0u8; 4096];
    let length = match rt.arg(argument, &mut path) {
        Ok(n) => n,
        Err(error) => {
            fail(rt, usage, reason(error));
            return None;
        }
    };
    match open(rt, &path[..length]) {
        Ok(mut file) => take(rt, &mut file, &path[..length], book),
        Err(error) => {
            fail(rt, &path[..length], error);
            None
        }
    }
}

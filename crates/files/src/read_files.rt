// A file's bytes. An error is told from the file's end, so that a folder, or a file that breaks off, is not taken for a short
// file.
ghost use Rattle.terms.specs.Common.{length};
ghost use Rattle.std.specs.Prelude.{IfOk, IfSome, ◌+◌, ◌≤◌};
ghost use Rattle.io.specs.Counts.{IsPrefixLen};

use crate::messages::{begin_line, complain_why};
use crate::status::spelt;
use std::fs;
use std::io::{Read, Result};
use std::rt::Files;

// The file's bytes from its start on, as many as the buffer takes; how many they are. Where not all goes well, a line says what
// is wrong.
pub fn read_start(rt: &impl Files, path: &[u8], buffer: &mut [u8], err: i32) -> Option<usize>
    ensures { IfSome result (λ count. IsPrefixLen count buffer.new) }
{
    let mut file = opened(rt, path, err)?;
    filled(&mut file, path, buffer, err)
}

// All of the file's bytes: one that the buffer does not take is too long.
pub fn read_whole(rt: &impl Files, path: &[u8], buffer: &mut [u8], err: i32) -> Option<usize>
    ensures { IfSome result (λ count. IsPrefixLen count buffer.new) }
{
    let mut file = opened(rt, path, err)?;
    let count = filled(&mut file, path, buffer, err)?;
    if count == buffer.len() && goes_on(&mut file, path, count, err) {
        return None;
    }
    Some(count)
}

fn opened<R: Files>(rt: &R, path: &[u8], err: i32) -> Option<R::File> {
    match open_read(rt, path) {
        Ok(file) => Some(file),
        Err(why) => {
            complain_why(err, path, b"cannot be opened", why);
            None
        }
    }
}

fn open_read<R: Files>(rt: &R, path: &[u8]) -> Result<R::File> {
    fs::open(rt, spelt(path)?)
}

fn filled(file: &mut impl Read, path: &[u8], buffer: &mut [u8], err: i32) -> Option<usize>
    ensures { IfSome result (λ count. IsPrefixLen count buffer.new) }
{
    match fill(file, buffer) {
        Ok(count) => Some(count),
        Err(why) => {
            complain_why(err, path, b"cannot be read", why);
            None
        }
    }
}

// Reads until the buffer is full, the file ends or a read fails.
fn fill(file: &mut impl Read, buffer: &mut [u8]) -> Result<usize>
    ensures { IfOk result (λ count. IsPrefixLen count buffer.new) }
{
    let mut at: usize = 0;
    while at < buffer.len() {
        let count = read_on(file, buffer, at)?;
        if count == 0 {
            return Ok(at);
        }
        at += count;
    }
    Ok(at)
}

// One read into the buffer from a place on. At the file's end it reads no byte, and all is well.
fn read_on(file: &mut impl Read, buffer: &mut [u8], at: usize) -> Result<usize>
    requires { at ≤ length buffer.old }
    ensures { IfOk result (λ count. at + count ≤ length buffer.new) }
{
    file.read(&mut buffer[at..])
}

// Whether a file goes on after the bytes that were read, or cannot be read on; then a line says so.
fn goes_on(file: &mut impl Read, path: &[u8], most: usize, err: i32) -> bool {
    let mut more = [0u8; 1];
    match file.read(&mut more) {
        Ok(0) => false,
        Ok(_) => {
            begin_line(err, path);
            io::write_all(err, b"is too long: at most ");
            io::print_decimal(err, most as u64);
            io::write_all(err, b" bytes\n");
            true
        }
        Err(why) => {
            complain_why(err, path, b"cannot be read", why);
            true
        }
    }
}

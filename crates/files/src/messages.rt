// One line that says what is wrong, with a file or with a word of the command.
ghost use Rattle.std.specs.Prelude.{◌≡◌};
ghost use Rattle.io.specs.Counts.{IsPrefixLen};
ghost use Rattle.files.specs.Shown.{shown_as};

use crate::system::{
    EACCES, EFBIG, EILSEQ, EISDIR, ELOOP, ENAMETOOLONG, ENOENT, ENOSPC, ENOTDIR, EPERM, EROFS,
    number_by,
};
use std::io::Error;

// The line as far as a place's name: what comes next says what is wrong there.
pub fn begin_line(err: i32, name: &[u8]) {
    io::write_all(err, b"iswenaid: ");
    if name.len() == 0 {
        io::write_all(err, b"''");
    }
    show_text(err, name, 255);
    io::write_all(err, b": ");
}

pub fn complain(err: i32, name: &[u8], what: &[u8]) {
    begin_line(err, name);
    io::write_all(err, what);
    io::write_all(err, b"\n");
}

// The same of a call that has just failed, with the reason that the system gives for it.
pub fn complain_why(err: i32, name: &[u8], what: &[u8], why: Error) {
    complain_error(err, name, what, number_by(why));
}

// The same of an error that the system gave before: the reasons that somebody at the machine can do something about in plain
// words, the others by their number.
pub fn complain_error(err: i32, name: &[u8], what: &[u8], error: i32) {
    begin_line(err, name);
    io::write_all(err, what);
    if let Some(reason) = reason_of(error) {
        io::write_all(err, reason);
        return;
    }
    io::write_all(err, b": the system's error ");
    io::print_decimal(err, u64::try_from(error).unwrap_or(0));
    io::write_all(err, b"\n");
}

// A list that breaks off, or is none, by the place where no record can be read.
pub fn complain_record(err: i32, name: &[u8], place: usize) {
    begin_line(err, name);
    io::write_all(err, b"no record can be read at byte ");
    io::print_decimal(err, place as u64);
    io::write_all(err, b"\n");
}

// What tells a reason, to the line's end. Errors are the system's own numbers.
fn reason_of(error: i32) -> Option<&'static [u8]> {
    match error {
        ENOENT => Some(b": no such file or folder\n"),
        ENOTDIR => Some(b": a file stands where a folder should\n"),
        EISDIR => Some(b": it is a folder\n"),
        EACCES | EPERM | EROFS => Some(b": not allowed\n"),
        ENOSPC => Some(b": no space left\n"),
        EFBIG => Some(b": the file would be too large\n"),
        ENAMETOOLONG => Some(b": the name is too long\n"),
        ELOOP => Some(b": links lead in a circle\n"),
        EILSEQ => Some(b": the name is no text in UTF-8\n"),
        _ => None,
    }
}

// A line's bytes so that they stay on one line and each takes one place: a tab as a blank, other bytes below the blank and
// those above the last as a question mark.
fn shown(b: u8, last: u8) -> u8
    ensures { result ≡ shown_as last b }
{
    if b == b'\t' {
        return b' ';
    }
    if b < b' ' {
        return b'?';
    }
    if last < b {
        return b'?';
    }
    b
}

// As much of a text as the buffer takes, each byte as it is shown.
fn put_shown(text: &[u8], last: u8, out: &mut [u8]) -> usize
    ensures { IsPrefixLen result out.new }
{
    let n = text.len().min(out.len());
    for i in 0..n {
        out[i] = shown(text[i], last);
    }
    n
}

// Text of somebody else's, of 65,536 bytes at most; bytes above the last are not shown as they are.
// Answers whether all of it was written.
pub fn show_text(fd: i32, text: &[u8], last: u8) -> bool {
    let mut out = io::large_buffer();
    let n = put_shown(text, last, &mut out);
    io::write_all(fd, &out[..n])
}

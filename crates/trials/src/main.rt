// Commands for the shops' program that come on standard input, one to a line, words with one blank between. Each is printed
// after `$ ` and done, wrong uses being told on standard output; `print FILE` prints a file's bytes.
#![tactic(auto)]

ghost use Rattle.std.specs.Prelude.{◌≤◌, ◌<◌};
ghost use Rattle.terms.specs.Common.{length};
ghost use Rattle.io.specs.Counts.{IsPrefixLen};

use files::{STDIN_FILENO, STDOUT_FILENO};
use std::fs;
use std::io::Print;
use std::os::unix::fs::symlink;
use std::rt::Files;

fn main(rt: HostRuntime) {
    make_links(&rt);
    let mut input = io::large_buffer();
    let n = io::read_full(STDIN_FILENO, &mut input);
    do_lines(&rt, &input[..n]);
}

// The links among the files, which a repository does not hold: to the data, to a list, to a setup, to nothing, and in a circle.
// So this runs in a copy of its folder of data.
fn make_links(rt: &impl Files) {
    make_link(rt, "../first.nc", "links/data");
    make_link(rt, "../whole.list", "links/list");
    make_link(rt, "../examples/T.setup", "links/setup");
    make_link(rt, "../none.list", "links/nowhere");
    make_link(rt, "circle", "links/circle");
}

// A link in place of what stands under its name. Where it cannot be made, the commands that name it say what they find.
fn make_link(rt: &impl Files, to: &str, name: &str) {
    let _ = fs::remove_file(rt, name);
    let _ = symlink(rt, to, name);
}

// The input's last line end begins no further line, as it would by the library's `split`.
fn do_lines<R: Files + Print>(rt: &R, input: &[u8]) {
    let mut from: usize = 0;
    while from < input.len() {
        let end = line_end(input, from);
        do_line(rt, &input[from..end]);
        from = end + 1;
    }
}

fn line_end(input: &[u8], from: usize) -> usize
    requires { from < length input.now }
    ensures { (from ≤ result) × (result ≤ length input.now) }
{
    match input[from..].iter().position(|b| *b == b'\n') {
        Some(length) => from + length,
        None => input.len(),
    }
}

fn do_line<R: Files + Print>(rt: &R, line: &[u8]) {
    io::write_all(STDOUT_FILENO, b"$ ");
    io::write_all(STDOUT_FILENO, line);
    io::write_all(STDOUT_FILENO, b"\n");
    if 6 <= line.len() {
        if texts::is_word(line, 0, 6, b"print ") {
            print(rt, &line[6..]);
            return;
        }
    }
    let mut words = io::large_buffer();
    let n = put_words(line, &mut words);
    shop::do_command(rt, &words[..n], STDOUT_FILENO);
}

// A file of 65,536 bytes at most.
fn print(rt: &impl Files, path: &[u8]) {
    let mut text = io::large_buffer();
    if let Some(n) = files::read_whole(rt, path, &mut text, STDOUT_FILENO) {
        io::write_all(STDOUT_FILENO, &text[..n]);
    }
}

fn word_byte(b: u8) -> u8 {
    if b == b' ' { 0 } else { b }
}

// The words of a line, each ended by a byte 0; none where it is empty or does not fit.
fn put_words(line: &[u8], words: &mut [u8]) -> usize
    ensures { IsPrefixLen result words.new }
{
    let n = line.len();
    if n == 0 || words.len() <= n {
        return 0;
    }
    for i in 0..n {
        words[i] = word_byte(line[i]);
    }
    words[n] = 0;
    n + 1
}

// A place in the data, shown by its block's text with a caret under the byte.
ghost use Rattle.std.specs.Prelude.{◌≡◌, ◌+◌, ◌≤◌};
ghost use Rattle.terms.specs.Common.{length, drop};
ghost use Rattle.lines.specs.Blocks.{text_from};
ghost use Rattle.answers.specs.Places.{Begins};

use files::STDOUT_FILENO;
use std::io::{ErrorKind, Print, Result};

// Where the block begins that a place lies in: after the last LF before it.
fn block_start(s: &[u8], at: usize) -> usize
    requires { at ≤ length s.now }
    ensures { Begins s.now at result }
{
    for i in (0..at).rev() {
        if s[i] == b'\n' {
            return i + 1;
        }
    }
    0
}

// Where the text ends of the block that begins at a place.
fn text_end(s: &[u8], from: usize) -> usize
    requires { from ≤ length s.now }
    ensures { (result ≡ from + length (text_from (drop from s.now))) × (result ≤ length s.now) }
{
    for i in from..s.len() {
        if lines::text_ends(s, i) {
            return i;
        }
    }
    s.len()
}

// The text of the block that a byte of the data stands in, and a caret under the byte; after the data's end it stands at the end.
pub fn show_place(rt: &impl Print, s: &[u8], byte: usize) -> Result<()> {
    let at = byte.min(s.len());
    let from = block_start(s, at);
    let end = text_end(s, from);
    // The data need not be text, so its bytes go out by the descriptor, whose answer is a bool.
    if !files::show_text(STDOUT_FILENO, &s[from..end], 126) {
        return Err(ErrorKind::Other.into());
    }
    println!(rt; "\n{:>1$}", "^", at - from + 1)
}

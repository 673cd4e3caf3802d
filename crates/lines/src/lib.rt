// The blocks of a data set, found by their places. A place is the data's own, since refusals name bytes: for a slice from it on, every
// caller would have to add the place again.
#![tactic(auto)]

mod gaps;

ghost use Rattle.std.specs.Prelude.{◌≡◌, ◌+◌, ◌≤◌, ◌<◌};
ghost use Rattle.terms.specs.Common.{false, length, drop};
ghost use Rattle.lines.specs.Blocks.{no_text, text_from, length_from, begins_with, is_percent};

pub use gaps::{comment_end, only_gaps};

// Whether a block's text ends at a place: at the data's end, at an LF, or at a CR just before one.
pub fn text_ends(s: &[u8], at: usize) -> bool
    requires { at ≤ length s.now }
    ensures { result ≡ no_text (drop at s.now) }
{
    if s.len() <= at {
        return true;
    }
    if s[at] == b'\n' {
        return true;
    }
    if s[at] != b'\r' {
        return false;
    }
    let next = at + 1;
    if s.len() <= next {
        return false;
    }
    s[next] == b'\n'
}

// Whether an LF stands among the eight bytes from a place on.
fn ends_soon(s: &[u8], at: usize) -> bool
    requires { at + 8 ≤ length s.now }
    ensures { result ≡ false → length_from (drop at s.now) ≡ 8 + length_from (drop (at + 8) s.now) }
{
    s[at..at + 8].contains(&b'\n')
}

// A place of the same block, this one or a later one, that is less than eight bytes from the LF that ends it, or from the data's end.
pub fn near_end(s: &[u8], at: usize) -> usize
    requires { at ≤ length s.now }
    ensures { (at ≤ result) × (result + length_from (drop result s.now) ≡ at + length_from (drop at s.now)) }
{
    let mut i = at;
    // Steps of eight, to where fewer bytes are left: a `for` would have to reckon its end first.
    while 8 <= s.len() - i {
        if ends_soon(s, i) {
            return i;
        }
        i += 8;
    }
    i
}

// The place of the next block, for a place in the block before it.
pub fn next_block(s: &[u8], at: usize) -> usize
    requires { at ≤ length s.now }
    ensures { result ≡ at + length_from (drop at s.now) }
{
    let mut i = near_end(s, at);
    // By a `for` over the places the reading of a block took an eighth longer.
    while i < s.len() {
        let b = s[i];
        i += 1;
        if b == b'\n' {
            return i;
        }
    }
    i
}

// Whether the block at a place is `%` alone.
pub fn is_percent(s: &[u8], at: usize) -> bool
    requires { at ≤ length s.now }
    ensures { result ≡ is_percent (text_from (drop at s.now)) }
{
    if s.len() <= at {
        return false;
    }
    if s[at] != b'%' {
        return false;
    }
    text_ends(s, at + 1)
}

// Whether the block at a place begins with a byte that ends no text.
pub fn begins_with(s: &[u8], at: usize, b: u8) -> bool
    requires { (at ≤ length s.now) × (13 < b) }
    ensures { result ≡ begins_with b (text_from (drop at s.now)) }
{
    if s.len() <= at {
        return false;
    }
    s[at] == b
}

// Writing text at a place of a buffer that may be too short for it. Each function writes what there is room for and answers
// the place after it, so that a writer of many parts tests the room once, at the end.
ghost use Rattle.std.specs.Prelude.{◌≡◌, ◌∷◌};
ghost use Rattle.terms.specs.Common.{[]};
ghost use Rattle.svg.specs.Text.{Fills, digits, number, across, filled};

use lengths::{Flat, Len};

fn put_byte(out: &mut [u8], at: usize, b: u8) -> usize
    ensures { Fills out.old at (b ∷ []) out.new result }
{
    if at < out.len() {
        out[at] = b;
        return at + 1;
    }
    at
}

pub fn put_text(out: &mut [u8], at: usize, text: &[u8]) -> usize
    ensures { Fills out.old at text.now out.new result }
{
    let mut next = at;
    for &b in text {
        next = put_byte(out, next, b);
    }
    next
}

// The digits of n but the last are those of a tenth of n.
fn put_digits(out: &mut [u8], at: usize, most: u32, n: u64) -> usize
    ensures { Fills out.old at (digits most n) out.new result }
{
    if most == 0 {
        return at;
    }
    if n < 10 {
        return put_byte(out, at, b'0' + n as u8);
    }
    let last = put_digits(out, at, most - 1, n / 10);
    put_byte(out, last, b'0' + (n % 10) as u8)
}

fn put_number(out: &mut [u8], at: usize, n: Len) -> usize
    ensures { Fills out.old at (number n.v) out.new result }
{
    let size = n.apart(Len::zero());
    if n.below(Len::zero()) {
        let next = put_byte(out, at, b'-');
        return put_digits(out, next, 20, size);
    }
    put_digits(out, at, 20, size)
}

fn across(a: Flat, b: Flat) -> Flat
    ensures { result ≡ across a b }
{
    let first = a.second;
    let second = b.first;
    Flat { first, second }
}

// A text with blanks: each `_` is the place of the next of four numbers, and after the last of the first again.
pub fn put_form(out: &mut [u8], at: usize, form: &[u8], a: Flat, b: Flat) -> usize
    ensures { Fills out.old at (filled form.now a b) out.new result }
{
    let mut next = at;
    let mut one = a;
    let mut two = b;
    for &c in form {
        if c != b'_' {
            next = put_byte(out, next, c);
            continue;
        }
        next = put_number(out, next, one.first);
        let turned = across(one, two);
        two = across(two, one);
        one = turned;
    }
    next
}

// The words of a text, apart by blanks and comments, and what one is worth as a number.
#![tactic(auto)]

ghost use Rattle.std.specs.Prelude.{◌≡◌, ◌+◌, ◌^◌, ◌≤◌, ◌<◌};
ghost use Rattle.std.proofs.Math.Seq.{slice};
ghost use Rattle.terms.specs.Common.{length};
ghost use Rattle.texts.specs.Texts.{is_blank, space_of, next, in_word, word_at, same_bytes};
ghost use Rattle.texts.specs.Figures.{digits_in, fitted, worth_of};

use lengths::Len;
use words::Sign;

// What is wrong with a setup file.
#[derive(Clone, Copy)]
pub enum Wrong {
    NoNumber,
    TooLarge,
    OtherName,
    TooFew,
    TooMuch,
}

// A byte between words, with a comment open after it or not; or the first of a word. No Option: what is there would be a bool
// that does not say of what.
#[derive(Clone, Copy)]
pub enum Space {
    Gap(bool),
    Word,
}

fn is_blank(b: u8) -> bool
    ensures { result ≡ is_blank b }
{
    (b == b' ') | (b == b'\t') | (b == b'\r') | (b == b'\n')
}

fn in_word(b: u8) -> bool
    ensures { result ≡ in_word b }
{
    !(is_blank(b) | (b == b'#'))
}

fn space_of(inside: bool, b: u8) -> Space
    ensures { result ≡ space_of inside b }
{
    if inside {
        return Space::Gap(b != b'\n');
    }
    if b == b'#' {
        return Space::Gap(true);
    }
    if is_blank(b) {
        return Space::Gap(false);
    }
    Space::Word
}

// The place of the next word, or the text's end.
pub fn next_word(s: &[u8], at: usize) -> usize
    ensures { result ≡ next s.now at }
{
    let mut inside = false;
    for i in at..s.len() {
        let Space::Gap(after) = space_of(inside, s[i]) else {
            return i;
        };
        inside = after;
    }
    at.max(s.len())
}

// The place after the word that begins at a place.
pub fn word_end(s: &[u8], at: usize) -> usize
    ensures { result ≡ at + length (word_at s.now at) }
{
    for i in at..s.len() {
        if !in_word(s[i]) {
            return i;
        }
    }
    at.max(s.len())
}

// Whether the bytes from a place to another are those of a name.
pub fn is_word(s: &[u8], from: usize, end: usize, name: &[u8]) -> bool
    requires { (from ≤ end) × (end ≤ length s.now) }
    ensures { result ≡ same_bytes (slice from end s.now) name.now }
{
    &s[from..end] == name
}

// Nineteen digits are below 2 ^ 64, so that their value is counted without a test at each.
pub fn digits_at(s: &[u8], from: usize, end: usize) -> Option<u64>
    requires { (from ≤ end) × (end ≤ length s.now) }
    ensures { result ≡ digits_in (slice from end s.now) }
{
    if from == end {
        return None;
    }
    if 19 < end - from {
        return None;
    }
    let mut value: u64 = 0;
    for i in from..end {
        let b = s[i];
        if b < b'0' {
            return None;
        }
        if b'9' < b {
            return None;
        }
        value = value * 10 + u64::from(b - b'0');
    }
    Some(value)
}

// A whole number with its sign, where 64 bits hold it.
fn fitted(sign: Sign, n: u64) -> Result<Len, Wrong>
    ensures { result ≡ fitted sign n }
{
    let fit = match sign {
        Sign::Minus => 0i64.checked_sub_unsigned(n),
        _ => 0i64.checked_add_unsigned(n),
    };
    fit.map(Len::of).ok_or(Wrong::TooLarge)
}

// What the word from a place to another is worth as a number.
pub fn worth_at(s: &[u8], from: usize, end: usize) -> Result<Len, Wrong>
    requires { (from < end) × (end ≤ length s.now) }
    ensures { result ≡ worth_of (slice from end s.now) }
{
    let sign = words::sign_of(s[from]);
    let n = digits_at(s, from + words::sign_length(sign), end).ok_or(Wrong::NoNumber)?;
    fitted(sign, n)
}

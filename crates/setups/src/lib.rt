// Setup files: a text of 35 numbers, with names before them or without, read as a setup.
#![tactic(auto)]

ghost use Rattle.std.specs.Prelude.{IfSome, ◌≡◌, ◌<◌};
ghost use Rattle.terms.specs.Common.{[], length, get_or};
ghost use Rattle.texts.specs.Texts.{next};
ghost use Rattle.setups.specs.Setups.{names, name_of, plan, is_named, name_at, number_at, entry_at, ended, axes_of, setup_of, answered, setup_in};

use lengths::Len;
use setup::{Axes, Setup};
use texts::Wrong;

// What is wrong with a setup file, and the place of the word at fault.
#[derive(Clone, Copy)]
pub struct Misread {
    pub wrong: Wrong,
    pub at: usize,
}

// A number of the file, and the place after it.
#[derive(Clone, Copy)]
pub struct Entry {
    pub value: Len,
    pub after: usize,
}

// The next number of the text.
fn number_at(s: &[u8], at: usize) -> Result<Entry, Misread>
    ensures { result ≡ number_at s.now at }
{
    let from = texts::next_word(s, at);
    let end = texts::word_end(s, from);
    if from == end {
        return Err(Misread {
            wrong: Wrong::TooFew,
            at: from,
        });
    }
    match texts::worth_at(s, from, end) {
        Ok(value) => Ok(Entry { value, after: end }),
        Err(wrong) => Err(Misread { wrong, at: from }),
    }
}

// The place after a name that is expected here.
fn pass_name(s: &[u8], at: usize, name: &[u8]) -> Result<usize, Misread>
    requires { 0 < length name.now }
    ensures { result ≡ name_at name.now s.now at }
{
    let from = texts::next_word(s, at);
    let end = texts::word_end(s, from);
    if from == end {
        return Err(Misread {
            wrong: Wrong::TooFew,
            at: from,
        });
    }
    if texts::is_word(s, from, end, name) {
        Ok(end)
    } else {
        Err(Misread {
            wrong: Wrong::OtherName,
            at: from,
        })
    }
}

// The names of a named file, one after the other, and where each begins; it ends where the next begins. No array of names: it
// was tried, and no proof was found that a name taken from an array of references is the one of the definitions.
const NAMES: [u8; 63] = *b"lowhighstartexofsg54g55g56g57g58g59feedlowesthighestspeedswitch";

const BEGINS: [usize; 16] = [0, 3, 7, 12, 17, 20, 23, 26, 29, 32, 35, 39, 45, 52, 57, 63];

// Which name stands before the number k: one before each group of three, and before each of the last five.
fn name_of(k: usize) -> Option<usize>
    requires { k < 35 }
    ensures value { result ≡ name_of k }
    ensures inside { IfSome result (λ j. j < 15) }
{
    if 30 <= k {
        return Some(k - 20);
    }
    if k % 3 == 0 {
        return Some(k / 3);
    }
    None
}

// The place after the name before the number k of a named file, where one stands there.
fn name_before(s: &[u8], at: usize, k: usize) -> Result<usize, Misread>
    requires { k < 35 }
    ensures { result ≡ name_at (get_or names k []) s.now at }
{
    let Some(j) = name_of(k) else {
        return Ok(at);
    };
    let from = BEGINS[j];
    let end = BEGINS[j + 1];
    let names = NAMES;
    pass_name(s, at, &names[from..end])
}

// The number k of the file, with its name before it where the file is named.
fn entry_at(s: &[u8], named: bool, k: usize, at: usize) -> Result<Entry, Misread>
    requires { k < 35 }
    ensures { result ≡ entry_at (get_or (plan named) k []) s.now at }
{
    if !named {
        return number_at(s, at);
    }
    let after = name_before(s, at, k)?;
    number_at(s, after)
}

// Whether the file's first word is a name.
fn is_named(s: &[u8]) -> bool
    ensures { result ≡ is_named s.now }
{
    let first = texts::next_word(s, 0);
    if s.len() <= first {
        return false;
    }
    let b = s[first];
    (b'a' <= b) & (b <= b'z')
}

// Three numbers from a place on.
fn axes_of(numbers: [Len; 35], at: usize) -> Axes
    requires { at < 33 }
    ensures { result ≡ axes_of numbers at }
{
    Axes {
        x: numbers[at].v,
        y: numbers[at + 1].v,
        z: numbers[at + 2].v,
    }
}

// The numbers in their places of the setup.
fn setup_of(numbers: [Len; 35]) -> Setup
    ensures { result ≡ setup_of numbers }
{
    Setup {
        low: axes_of(numbers, 0),
        high: axes_of(numbers, 3),
        start: axes_of(numbers, 6),
        exofs: axes_of(numbers, 9),
        origins: [
            axes_of(numbers, 12),
            axes_of(numbers, 15),
            axes_of(numbers, 18),
            axes_of(numbers, 21),
            axes_of(numbers, 24),
            axes_of(numbers, 27),
        ],
        feed: numbers[30].v,
        lowest: numbers[31].v,
        highest: numbers[32].v,
        speed: numbers[33].v,
        skip: numbers[34].v,
    }
}

// Nothing may stand after the last number.
fn finished(s: &[u8], at: usize, numbers: [Len; 35]) -> Result<Setup, Misread>
    ensures { result ≡ answered (ended s.now at numbers) }
{
    let place = texts::next_word(s, at);
    if place < s.len() {
        return Err(Misread {
            wrong: Wrong::TooMuch,
            at: place,
        });
    }
    Ok(setup_of(numbers))
}

// The setup that a file's text gives, or what is wrong with it.
pub fn read_setup(s: &[u8]) -> Result<Setup, Misread>
    ensures { result ≡ setup_in s.now }
{
    let named = is_named(s);
    let mut numbers = [Len::zero(); 35];
    let mut at = 0;
    for k in 0..35 {
        let entry = entry_at(s, named, k, at)?;
        numbers[k] = entry.value;
        at = entry.after;
    }
    finished(s, at, numbers)
}

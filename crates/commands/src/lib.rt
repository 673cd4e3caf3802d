// The words of a command, each ended by a byte 0, and the options among them.
#![tactic(auto)]

mod options;

ghost use Rattle.std.specs.Prelude.{position, ◌≡◌, ◌+◌, ◌≤◌};
ghost use Rattle.terms.specs.Common.{length, drop};
ghost use Rattle.texts.specs.Texts.{same_bytes};
ghost use Rattle.commands.specs.Words.{is_end, count_in, word_in, after_word, after_words, word_of};

pub use options::{Options, options_of};

// How many words there are.
pub fn count_of(line: &[u8]) -> usize
    ensures { result ≡ count_in line.now }
{
    line.iter().filter(|b| **b == 0).count()
}

fn word_end(line: &[u8], from: usize) -> usize
    requires { from ≤ length line.now }
    ensures { result ≡ from + length (word_in (drop from line.now)) }
{
    match first_end(&line[from..]) {
        Some(length) => from + length,
        None => line.len(),
    }
}

fn first_end(bytes: &[u8]) -> Option<usize>
    ensures { result ≡ position is_end bytes.now }
{
    bytes.iter().position(|b| *b == 0)
}

// The place after the word that begins at a place, and after its end.
fn after_word(line: &[u8], from: usize) -> usize
    requires { from ≤ length line.now }
    ensures { (result ≤ length line.now) × (drop result line.now ≡ after_word (drop from line.now)) }
{
    let end = word_end(line, from);
    if end < line.len() {
        return end + 1;
    }
    line.len()
}

// The place after so many words.
fn after_words(line: &[u8], count: usize) -> usize
    ensures { (result ≤ length line.now) × (drop result line.now ≡ after_words count line.now) }
{
    let mut at = 0;
    for _ in 0..count {
        at = after_word(line, at);
    }
    at
}

// The word number k, the first being 0; no byte where there is none.
pub fn word(line: &[u8], k: usize) -> &[u8]
    ensures { result.now ≡ word_of k line.now }
{
    let from = after_words(line, k);
    let end = word_end(line, from);
    &line[from..end]
}

// Whether a word is this one.
pub fn is(given: &[u8], name: &[u8]) -> bool
    ensures { result ≡ same_bytes given.now name.now }
{
    texts::is_word(given, 0, given.len(), name)
}

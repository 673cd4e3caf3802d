// The tests of one word in a block, refusal 4, and the readable item at a place of its text.
#![tactic(auto)]

mod gathering;

ghost use Rattle.std.specs.Prelude.{◌≡◌, ◌+◌, ◌≤◌, ◌<◌};
ghost use Rattle.terms.specs.Common.{Bool, true, false, List, length, drop, get_or};
ghost use Rattle.lines.specs.Blocks.{text_from};
ghost use Rattle.words.specs.Words.{is_capital, item_at};
ghost use Rattle.letters.specs.Letters.{is_known, is_g, is_misc, code_in, misc_in, stands_alone, wrong_program};
ghost use Rattle.reading.specs.{Items.placed, Seen.letter_place, Seen.Tells, Seen.TellsG, Seen.bad_misc};

use codes::{Code, Misc};
pub use gathering::read_words;
use refusals::Refusal;
use settings::Modes;
use words::{Numeral, Word};

// What begins at a place of a block: a blank or a comment, or a word, each with the place after it.
#[derive(Clone, Copy)]
pub enum Item {
    Gap(usize),
    Says(Word, usize),
}

// What is kept of the words that were read: which letters of the alphabet and which groups of codes stood, the M code, and
// the modes that hold.
#[derive(Clone, Copy)]
pub struct Seen {
    pub letters: [bool; 26],
    pub groups: [bool; 8],
    pub misc: Misc,
    pub modes: Modes,
}

// What a word is after those that were read: it may not stand, or it is a code, an M code or a word with a value.
#[derive(Clone, Copy)]
pub enum Role {
    MayNot,
    Code(Code),
    Misc(Misc),
    Value,
}

// What the reading of a block answers where its words may all stand: `count` words with a value stand in the arrays that were
// lent, in their order, and `end` is where the block's text ends.
#[derive(Clone, Copy)]
pub struct Reading {
    pub seen: Seen,
    pub count: usize,
    pub end: usize,
}

// The item at a place, or the refusal of what cannot be read there.
pub fn item_at(s: &[u8], i: usize) -> Result<Item, Refusal>
    requires { i < length s.now }
    ensures { result ≡ placed i (item_at i (get_or s.now i 0) (text_from (drop (i + 1) s.now))) }
{
    let next = i + 1;
    match s[i] {
        b' ' | b'\t' => Ok(Item::Gap(next)),
        b'(' => {
            let after = lines::comment_end(s, next).ok_or(Refusal::Unreadable)?;
            Ok(Item::Gap(after))
        }
        letter @ b'A'..=b'Z' => {
            let Some(numeral) = words::read_number(&s[next..]) else {
                return Err(Refusal::Unreadable);
            };
            let word = Word {
                at: i,
                number: numeral.number,
                letter,
            };
            Ok(Item::Says(word, next + numeral.length))
        }
        _ => Err(Refusal::Unreadable),
    }
}

// No `matches!`: the other bytes are an arm, which an edit can get wrong.
fn is_known(b: u8) -> bool
    ensures { result ≡ is_known b }
{
    match b {
        b'F' | b'G' | b'I' | b'J' | b'K' | b'M' | b'N' | b'P' | b'R' | b'S' | b'X' | b'Y' | b'Z' =>
            true,
        _ => false,
    }
}

// The place of a capital letter in the alphabet, from 0. It is reckoned and not looked up, so that the letters that stood
// stay in memory as they are.
pub fn letter_place(b: u8) -> usize
    requires { is_capital b ≡ true }
    ensures { result ≡ letter_place b }
{
    (b - b'A') as usize
}

// A code with a sign or a point is no code.
// `misc_in` has this shape over another table: one function for both would take the table and the other value, and be longer.
pub fn code_in(w: Word) -> Code
    ensures { result ≡ code_in w }
{
    if words::is_plain(w.number) {
        codes::code_of(w.number.digits)
    } else {
        Code::Unknown
    }
}

pub fn misc_in(w: Word) -> Misc
    ensures { result ≡ misc_in w }
{
    if words::is_plain(w.number) {
        codes::misc_of(w.number.digits)
    } else {
        Misc::Other
    }
}

// M98 and M99, beside which no G code stands.
fn stands_alone(m: Misc) -> bool
    ensures { result ≡ stands_alone m }
{
    matches!(m, Misc::M98 | Misc::M99)
}

// M99 has no place in the main program, and M02 and M30 have none in a subprogram.
fn is_wrong_program(main: bool, m: Misc) -> bool
    ensures { result ≡ wrong_program main m }
{
    if main {
        m == Misc::M99
    } else {
        matches!(m, Misc::M02 | Misc::M30)
    }
}

// An M code that may not stand; `after` tells that a G code stands before it.
fn is_bad_misc(main: bool, after: bool, m: Misc) -> bool
    ensures { result ≡ bad_misc main after m }
{
    (m == Misc::Other) | is_wrong_program(main, m) | (stands_alone(m) & after)
}

// A G code that may not stand after the groups and the M code that were read.
fn is_bad_code(groups: [bool; 8], m: Misc, c: Code) -> bool
    ensures { TellsG groups m c result }
{
    let g = codes::group_of(c) as usize;
    if g == 0 {
        return true;
    }
    if groups[g] {
        return true;
    }
    let alone = stands_alone(m);
    // G04 and group A do not stand together.
    if g == 1 {
        return groups[7] | alone;
    }
    if g == 7 {
        return groups[1] | alone;
    }
    alone
}

fn code_role(groups: [bool; 8], m: Misc, w: Word) -> Role
    requires { is_g w ≡ true }
    ensures { (main stood after : Bool) → Tells main stood after groups m w result }
{
    let c = code_in(w);
    if is_bad_code(groups, m, c) {
        return Role::MayNot;
    }
    Role::Code(c)
}

// `after` tells that a G code stands before it. No other M code does.
fn misc_role(main: bool, after: bool, w: Word) -> Role
    requires { is_misc w ≡ true }
    ensures { (groups : List Bool) (m : Misc) → Tells main false after groups m w result }
{
    let m = misc_in(w);
    if is_bad_misc(main, after, m) {
        return Role::MayNot;
    }
    Role::Misc(m)
}

// The role of a word after what was read: whether its letter and whether a G code stood, the groups and the M code.
pub fn role_of(main: bool, stood: bool, after: bool, groups: [bool; 8], m: Misc, w: Word) -> Role
    ensures { Tells main stood after groups m w result }
{
    if w.letter == b'G' {
        return code_role(groups, m, w);
    }
    if stood | !is_known(w.letter) {
        return Role::MayNot;
    }
    if w.letter == b'M' {
        return misc_role(main, after, w);
    }
    Role::Value
}

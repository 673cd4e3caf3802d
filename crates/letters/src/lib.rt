// Which words may stand in a block and what they mean there.
#![tactic(auto)]

mod judgement;

ghost use Rattle.std.specs.Prelude.{◌≡◌, ◌∷◌, ◌++◌};
ghost use Rattle.words.specs.declared.Use.TheVariants as Use;
ghost use Rattle.terms.specs.Common.{List, []};
ghost use Rattle.words.specs.declared.Word.{Word};
ghost use Rattle.letters.specs.Letters.{used_in, each, straight_letters, end_letters, centre_letters, turns, is_arc, names_centre, has_centre, arc_letters, cycle_letters, dwelling_cycle_letters, drilling_letters, motion_letters, dwell_letters, call_letters, feed_and_speed, use_of, code_under};
ghost use Rattle.letters.specs.Judging.{CentreSeen};

use codes::{Cycle, Misc, Motion, Plane};
pub use judgement::judge;
use lengths::Len;
use words::Use;

// The code of a block that decides its letters.
#[derive(Clone, Copy)]
pub enum BlockCode {
    Calling,
    Returning,
    Dwelling,
    Moving(Motion),
}

// The spindle speeds of the setup, the lowest and the highest.
#[derive(Clone, Copy)]
pub struct Speeds {
    pub lowest: Len,
    pub highest: Len,
}

// Why a block's words have no values, by the place of a word: of the first that the block's code does not use, or else of the
// first whose value is refused.
#[derive(Clone, Copy, PartialEq, Eq)]
pub enum Unfit {
    Unused(usize),
    Bad(usize),
}

// M98 or M99 decide before G04, and G04 before the motion.
pub fn block_code(misc: Misc, dwells: bool, motion: Motion) -> BlockCode
    ensures { result ≡ code_under misc dwells motion }
{
    match misc {
        Misc::M98 => BlockCode::Calling,
        Misc::M99 => BlockCode::Returning,
        _ if dwells => BlockCode::Dwelling,
        _ => BlockCode::Moving(motion),
    }
}

pub fn turns(motion: Motion) -> bool
    ensures { result ≡ turns motion }
{
    matches!(motion, Motion::G02 | Motion::G03)
}

fn is_arc(code: BlockCode) -> bool
    ensures { result ≡ is_arc code }
{
    matches!(code, BlockCode::Moving(motion) if turns(motion))
}

// Whether a centre word of the plane stands; i, j and k tell whether these letters stand in the block.
fn names_centre(plane: Plane, i: bool, j: bool, k: bool) -> bool
    ensures { (ws : List Word) → CentreSeen ws i j k → result ≡ names_centre plane ws }
{
    match plane {
        Plane::G17 => i | j,
        Plane::G18 => k | i,
        Plane::G19 => j | k,
    }
}

// Whether the block is an arc with a centre word, beside which no R may stand.
pub fn has_centre(code: BlockCode, plane: Plane, i: bool, j: bool, k: bool) -> bool
    ensures { (ws : List Word) → CentreSeen ws i j k → result ≡ has_centre code plane ws }
{
    is_arc(code) & names_centre(plane, i, j, k)
}

// An arm for each letter, as in `use_of`: several in one pattern were tried, and the answers, which go by single rows of the table, did not close.
fn straight_use(letter: u8) -> Use
    ensures { result ≡ used_in straight_letters letter }
{
    match letter {
        b'X' => Use::Length,
        b'Y' => Use::Length,
        b'Z' => Use::Length,
        _ => Use::Nothing,
    }
}

// A length for one of four letters.
fn length_among(letter: u8, a: u8, b: u8, c: u8, d: u8) -> Use
    ensures { result ≡ used_in (each (a ∷ b ∷ c ∷ d ∷ []) Use.Length) letter }
{
    if [a, b, c, d].contains(&letter) {
        Use::Length
    } else {
        Use::Nothing
    }
}

// The plane's two axes and the centre's letters.
fn plane_use(plane: Plane, letter: u8) -> Use
    ensures { result ≡ used_in (each (end_letters plane ++ centre_letters plane) Use.Length) letter }
{
    match plane {
        Plane::G17 => length_among(letter, b'X', b'Y', b'I', b'J'),
        Plane::G18 => length_among(letter, b'Z', b'X', b'K', b'I'),
        Plane::G19 => length_among(letter, b'Y', b'Z', b'J', b'K'),
    }
}

// Those and the radius.
fn arc_use(plane: Plane, letter: u8) -> Use
    ensures { result ≡ used_in (arc_letters plane) letter }
{
    match letter {
        b'R' => Use::Length,
        _ => plane_use(plane, letter),
    }
}

fn cycle_use(letter: u8) -> Use
    ensures { result ≡ used_in cycle_letters letter }
{
    match letter {
        b'K' => Use::Count,
        _ => length_among(letter, b'X', b'Y', b'Z', b'R'),
    }
}

fn dwelling_cycle_use(letter: u8) -> Use
    ensures { result ≡ used_in dwelling_cycle_letters letter }
{
    match letter {
        b'P' => Use::Dwell,
        _ => cycle_use(letter),
    }
}

fn drilling_use(cycle: Cycle, letter: u8) -> Use
    ensures { result ≡ used_in (drilling_letters cycle) letter }
{
    match cycle {
        Cycle::G81 | Cycle::G85 => cycle_use(letter),
        Cycle::G82 | Cycle::G89 => dwelling_cycle_use(letter),
    }
}

fn motion_use(motion: Motion, plane: Plane, letter: u8) -> Use
    ensures { result ≡ used_in (motion_letters motion plane) letter }
{
    match motion {
        Motion::Off => Use::Nothing,
        Motion::G00 | Motion::G01 => straight_use(letter),
        Motion::G02 | Motion::G03 => arc_use(plane, letter),
        Motion::Drilling(cycle) => drilling_use(cycle, letter),
    }
}

fn moving_use(motion: Motion, plane: Plane, letter: u8) -> Use
    ensures { result ≡ used_in (feed_and_speed ++ motion_letters motion plane) letter }
{
    match letter {
        b'F' => Use::Feed,
        b'S' => Use::Speed,
        _ => motion_use(motion, plane, letter),
    }
}

fn dwell_use(letter: u8) -> Use
    ensures { result ≡ used_in dwell_letters letter }
{
    match letter {
        b'P' => Use::Dwell,
        b'F' => Use::Feed,
        b'S' => Use::Speed,
        _ => Use::Nothing,
    }
}

fn call_use(letter: u8) -> Use
    ensures { result ≡ used_in call_letters letter }
{
    match letter {
        b'P' => Use::Program,
        _ => Use::Nothing,
    }
}

// What a letter means in a block. N goes with every block, and G and M are the codes themselves.
pub fn use_of(code: BlockCode, plane: Plane, letter: u8) -> Use
    ensures { result ≡ use_of code plane letter }
{
    match letter {
        b'N' => Use::Label,
        b'G' => Use::Codes,
        b'M' => Use::Codes,
        _ => match code {
            BlockCode::Calling => call_use(letter),
            BlockCode::Returning => Use::Nothing,
            BlockCode::Dwelling => dwell_use(letter),
            BlockCode::Moving(motion) => moving_use(motion, plane, letter),
        },
    }
}

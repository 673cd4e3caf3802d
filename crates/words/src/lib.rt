// Words of a block: a capital letter and, directly after, a number.
#![tactic(auto)]

mod numerals;

ghost use Rattle.std.specs.Prelude.{◌≡◌, ◌^◌, ◌≤◌, ◌<◌, ◌&&◌};
ghost use Rattle.terms.specs.Common.{not, pos, length, lt_z};
ghost use Rattle.terms.specs.Terms.{byte, between};
ghost use Rattle.lengths.specs.Units.{len};
ghost use Rattle.words.specs.Values.{is_plain, signed, places_of, units_of, length_of, is_length, dwell_of, is_dwell, count_of, checked, value_of};
ghost use Rattle.words.specs.{Serving.Written, Serving.Steps, Packed.sign_number, Packed.sign_at, Packed.packed, Packed.unpacked};

use codes::Unit;
use lengths::Len;
pub use numerals::{read_number, sign_length, sign_of};

// The sign that a number is written with.
#[derive(Clone, Copy, PartialEq, Eq)]
pub enum Sign {
    Plain,
    Plus,
    Minus,
}

// A number as it is written: its digits as one whole number, and how many of them stand after the point. The large fields
// come first, here and in a word, so that less padding is copied with the rest.
// That it is `Written` cannot be an invariant: the definition `unpacked` (specs/Packed.antt) makes a number of any packed word.
#[derive(Clone, Copy)]
pub struct Number {
    pub digits: u64,
    pub decimals: u64,
    pub sign: Sign,
    pub point: bool,
}

// What the number reader finds: a number, and how many bytes it takes.
#[derive(Clone, Copy)]
pub struct Numeral {
    pub number: Number,
    pub length: usize,
}

// A word and the place of its letter, a byte of the data.
#[derive(Clone, Copy)]
pub struct Word {
    pub at: usize,
    pub number: Number,
    pub letter: u8,
}

// What a letter means in a block, which decides the form and the limits of its number.
#[derive(Clone, Copy, PartialEq, Eq)]
pub enum Use {
    Nothing,
    Codes,
    Label,
    Program,
    Length,
    Feed,
    Speed,
    Dwell,
    Count,
}

// The values of a block's words, by their letters: none where the word does not stand in the block.
#[derive(Clone, Copy)]
pub struct Values {
    pub x: Option<Len>,
    pub y: Option<Len>,
    pub z: Option<Len>,
    pub i: Option<Len>,
    pub j: Option<Len>,
    pub k: Option<Len>,
    pub r: Option<Len>,
    pub p: Option<Len>,
    pub f: Option<Len>,
    pub s: Option<Len>,
}

// The sign as a number below 4, two bits of a packed word, and back.
fn sign_number(sign: Sign) -> u64
    ensures { result ≡ sign_number sign }
{
    match sign {
        Sign::Plain => 0,
        Sign::Plus => 1,
        Sign::Minus => 2,
    }
}

fn sign_at(n: u64) -> Sign
    ensures { result ≡ sign_at n }
{
    match n {
        0 => Sign::Plain,
        1 => Sign::Plus,
        _ => Sign::Minus,
    }
}

// A word in one number, so that it is kept and handed on without its forty bytes being copied; its place stands apart.
// Measured together with two other steps (docs/SPEED.md, "What each step was worth").
pub fn pack(w: Word) -> u64
    requires { Written w.number }
    ensures { result ≡ packed w }
{
    let n = w.number;
    let point = n.point as u64;
    n.digits * 32768 + n.decimals * 2048 + sign_number(n.sign) * 512 + point * 256 + w.letter as u64
}

// The word again.
pub fn unpack(packed: u64, at: usize) -> Word
    ensures { result ≡ unpacked packed at }
{
    let number = Number {
        digits: packed / 32768,
        decimals: packed / 2048 % 16,
        sign: sign_at(packed / 512 % 4),
        point: packed / 256 % 2 == 1,
    };
    Word {
        at,
        number,
        letter: (packed % 256) as u8,
    }
}

// Ten to the k. No unit has more than four decimals.
fn power_of_ten(k: u64) -> u64
    requires { k ≤ 4 }
    ensures { result ≡ 10 ^ k }
{
    match k {
        0 => 1,
        1 => 10,
        2 => 100,
        3 => 1000,
        _ => 10000,
    }
}

// A number in the least steps of its unit, of which `places` decimals make one whole.
fn steps(places: u64, n: Number) -> u64
    requires written { Written n }
    requires decimals_le_places { (n.decimals ≤ places) × (places ≤ 4) }
    ensures { Steps places n result }
{
    if n.point {
        n.digits * power_of_ten(places - n.decimals)
    } else {
        n.digits
    }
}

// How many decimals a length may have.
fn places_of(unit: Unit) -> u64
    ensures { result ≡ places_of unit }
{
    match unit {
        Unit::Millimetre => 3,
        Unit::Inch => 4,
    }
}

// How many units of 0.00001 mm the least step is.
fn units_of(unit: Unit) -> u64
    ensures { result ≡ units_of unit }
{
    match unit {
        Unit::Millimetre => 100,
        Unit::Inch => 254,
    }
}

fn signed(sign: Sign, n: u64) -> Len
    requires { n < 2 ^ 63 }
    ensures { result ≡ len (signed sign n) }
{
    let z = Len::of_count(n);
    match sign {
        Sign::Plain | Sign::Plus => z,
        Sign::Minus => z.negated(),
    }
}

// A value that is refused where its test failed.
fn checked(ok: bool, z: Len) -> Option<Len>
    ensures { result ≡ checked ok z.v }
{
    ok.then_some(z)
}

// Neither sign nor point.
pub fn is_plain(n: Number) -> bool
    ensures { result ≡ is_plain n }
{
    n.sign == Sign::Plain && !n.point
}

// The size is tested without its sign. It fits: nine digits and four more are below 2 ^ 63 units, in inch too.
fn length_value(unit: Unit, n: Number) -> Option<Len>
    requires { Written n }
    ensures { result ≡ checked (is_length unit n) (length_of unit n) }
{
    let places = places_of(unit);
    if places < n.decimals {
        return None;
    }
    let size = steps(places, n) * units_of(unit);
    checked(size <= 1000000000, signed(n.sign, size))
}

fn feed_value(unit: Unit, n: Number) -> Option<Len>
    requires { Written n }
    ensures { result ≡ checked (is_length unit n && lt_z (pos 0) (length_of unit n)) (length_of unit n) }
{
    let z = length_value(unit, n)?;
    checked(Len::zero().below(z), z)
}

fn dwell_value(n: Number) -> Option<Len>
    requires { Written n }
    ensures { result ≡ checked (is_dwell n) (dwell_of n) }
{
    if 3 < n.decimals {
        return None;
    }
    let z = signed(n.sign, steps(3, n));
    checked(
        Len::zero().at_most(z) & z.at_most(Len::of_count(3600000)),
        z,
    )
}

// How often: a negative number is 0 times, and a large one 9,999 times.
fn count_of(n: Number) -> u64
    requires { Written n }
    ensures { result ≡ count_of n }
{
    if signed(n.sign, n.digits).below(Len::zero()) {
        return 0;
    }
    if n.digits <= 9999 { n.digits } else { 9999 }
}

fn count_value(n: Number) -> Option<Len>
    requires { Written n }
    ensures { result ≡ checked (not n.point) (pos (count_of n)) }
{
    checked(!n.point, Len::of_count(count_of(n)))
}

fn label_value(n: Number) -> Option<Len>
    requires { Written n }
    ensures { result ≡ checked (is_plain n) (pos n.digits) }
{
    checked(is_plain(n), Len::of_count(n.digits))
}

fn speed_value(lowest: Len, highest: Len, n: Number) -> Option<Len>
    requires { Written n }
    ensures { result ≡ checked (is_plain n && between lowest.v highest.v (pos n.digits)) (pos n.digits) }
{
    let z = Len::of_count(n.digits);
    checked(is_plain(n) & (lowest.at_most(z) & z.at_most(highest)), z)
}

// The value of a number for its use, or none where it is refused, by the unit of its block and the lowest and the highest spindle speed.
pub fn value_of(unit: Unit, lowest: Len, highest: Len, use_of: Use, n: Number) -> Option<Len>
    requires { Written n }
    ensures { result ≡ value_of unit lowest.v highest.v use_of n }
{
    match use_of {
        Use::Nothing | Use::Codes => Some(Len::zero()),
        Use::Label | Use::Program => label_value(n),
        Use::Speed => speed_value(lowest, highest, n),
        Use::Count => count_value(n),
        Use::Dwell => dwell_value(n),
        Use::Length => length_value(unit, n),
        Use::Feed => feed_value(unit, n),
    }
}

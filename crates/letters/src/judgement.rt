// The values of a block's words, or the first word that may not stand or has a bad value.
ghost use Rattle.std.specs.Prelude.{◌≡◌, ◌&&◌, ◌||◌};
ghost use Rattle.terms.specs.Common.{eqb, take};
ghost use Rattle.terms.specs.Terms.{byte};
ghost use Rattle.words.specs.Packed.{words_in};
ghost use Rattle.letters.specs.{Letters.is_nothing, Judging.judged_by, Judging.Stored, Places.values_in, Places.IsPlace};

use crate::{BlockCode, Speeds, Unfit};
use lengths::Len;
use settings::Modes;
use words::{Use, Values};

// A letter without a meaning in the block, or an R beside a centre word.
fn is_unused(meaning: Use, centred: bool, letter: u8) -> bool
    ensures { result ≡ (is_nothing meaning || centred && eqb letter (byte "R")) }
{
    (meaning == Use::Nothing) | (centred & (letter == b'R'))
}

// The place of a letter's value in the array. N, G and M are no values: what they are worth goes to the last place,
// which nothing reads.
fn value_place(letter: u8) -> usize
    ensures { IsPlace letter result }
{
    match letter {
        b'X' => 0,
        b'Y' => 1,
        b'Z' => 2,
        b'I' => 3,
        b'J' => 4,
        b'K' => 5,
        b'R' => 6,
        b'P' => 7,
        b'F' => 8,
        b'S' => 9,
        _ => 10,
    }
}

fn values_in(v: [Option<Len>; 11]) -> Values
    ensures { result ≡ values_in v }
{
    Values {
        x: v[0],
        y: v[1],
        z: v[2],
        i: v[3],
        j: v[4],
        k: v[5],
        r: v[6],
        p: v[7],
        f: v[8],
        s: v[9],
    }
}

// A word that the code does not use is named before any bad value, also one on its left; of bad values the first. An R beside a
// centre word is not used: `centred` tells that the block is an arc with one.
// The values stand in an array of this function, where each is written once: `Values` handed from word to word would be
// copied for each of them.
pub fn judge(
    speeds: Speeds,
    m: Modes,
    code: BlockCode,
    centred: bool,
    words: &[u64; 13],
    places: &[usize; 13],
    count: usize,
) -> Result<Values, Unfit>
    requires { Stored (words_in words.now places.now) count }
    ensures { result ≡ judged_by speeds m code centred (take count (words_in words.now places.now)) }
{
    let mut v = [None; 11];
    let mut bad = None;
    for i in 0..count {
        let w = words::unpack(words[i], places[i]);
        let meaning = crate::use_of(code, m.plane, w.letter);
        if is_unused(meaning, centred, w.letter) {
            return Err(Unfit::Unused(w.at));
        }
        let value = words::value_of(m.unit, speeds.lowest, speeds.highest, meaning, w.number);
        let Some(z) = value else {
            bad = bad.or(Some(w.at));
            continue;
        };
        let k = value_place(w.letter);
        v[k] = Some(z);
    }
    match bad {
        Some(place) => Err(Unfit::Bad(place)),
        None => Ok(values_in(v)),
    }
}

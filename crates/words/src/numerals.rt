// Reading a number as it is written, each byte once.
ghost use Rattle.std.specs.Prelude.{◌≡◌, ◌+◌, ◌≤◌, ◌∷◌};
ghost use Rattle.std.proofs.Math.Seq.{slice};
ghost use Rattle.terms.specs.Common.{[], length, drop};
ghost use Rattle.words.specs.Numbers.{is_figure, sign_of, sign_length, run, number_by, number_in};

use crate::{Number, Numeral, Sign};

// The sign of a number that begins with this byte.
pub fn sign_of(b: u8) -> Sign
    ensures { result ≡ sign_of (b ∷ []) }
{
    match b {
        b'+' => Sign::Plus,
        b'-' => Sign::Minus,
        _ => Sign::Plain,
    }
}

// How many bytes the sign takes.
pub fn sign_length(sign: Sign) -> usize
    ensures { result ≡ sign_length sign }
{
    match sign {
        Sign::Plain => 0,
        Sign::Plus | Sign::Minus => 1,
    }
}

// The number with this sign that the figures after it make. A second point makes it unreadable, whatever follows, and so does
// a tenth digit: the reader stops there, so that the value always fits. What was passed is kept in plain variables, since a
// struct that changes at each byte costs more.
fn read_figures(bytes: &[u8], sign: Sign) -> Option<Numeral>
    ensures { result ≡ number_by sign (run is_figure bytes.now) }
{
    let mut digits: u64 = 0;
    let mut decimals: u64 = 0;
    let mut count: u64 = 0;
    let mut point = false;
    for b in bytes {
        match *b {
            b'.' => {
                if point {
                    return None;
                }
                point = true;
            }
            b'0'..=b'9' => {
                if count == 9 {
                    return None;
                }
                digits = digits * 10 + (*b - b'0') as u64;
                count += 1;
                if point {
                    decimals += 1;
                }
            }
            _ => break,
        }
    }
    if count == 0 {
        return None;
    }
    let number = Number {
        digits,
        decimals,
        sign,
        point,
    };
    Some(Numeral {
        number,
        length: sign_length(sign) + count as usize + point as usize,
    })
}

// The number that the bytes begin with. Each byte is read once, up to the first that is not the number's.
pub fn read_number(bytes: &[u8]) -> Option<Numeral>
    ensures { result ≡ number_in bytes.now }
{
    let first = bytes.first()?;
    let sign = sign_of(*first);
    read_figures(&bytes[sign_length(sign)..], sign)
}

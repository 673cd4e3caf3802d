// Numbers past 64 bits, as two words: a product of two numbers of 64 bits, and its division by a third.
#![tactic(auto)]

ghost use Rattle.std.specs.Prelude.{◌≡◌, ◌*◌, ◌^◌, ◌≤◌, ◌<◌};
ghost use Rattle.wide.specs.Wide.{worth, Divides};

#[derive(Clone, Copy)]
pub struct Wide {
    pub high: u64,
    pub low: u64,
}

#[derive(Clone, Copy)]
pub struct Division {
    pub quotient: u64,
    pub rest: u64,
}

// Half a word is a digit when multiplying by hand.
const BASE: u64 = 4_294_967_296;

// Multiplied as by hand: the four products of a digit of a and one of b, column by column with their carries. The largest
// digit times itself and two digits more is 2 ^ 64 − 1, so that no column is too wide. In a run the product is at most
// 4 · 10 ^ 36, which has 122 bits.
pub fn product(a: u64, b: u64) -> Wide
    ensures { worth result ≡ a * b }
{
    let a1 = a / BASE;
    let a0 = a % BASE;
    let b1 = b / BASE;
    let b0 = b % BASE;
    let first = a0 * b0;
    let second = a1 * b0 + first / BASE;
    let third = a0 * b1 + second % BASE;
    let high = a1 * b1 + second / BASE + third / BASE;
    let low = third % BASE * BASE + first % BASE;
    Wide { high, low }
}

// Long division by hand, in binary: one digit at a time is brought down from the top of the low word to the rest, and the
// quotient's next digit is written into the place that this leaves free at the word's other end. The rest is below the
// divisor, so that twice the rest and a digit fit; the high word is too, so that the quotient has no more digits than the
// low word. In a run the divisor and the quotient are at most 4 · 10 ^ 18, below 2 ^ 62.
pub fn divided(w: Wide, by: u64) -> Division
    requires { (w.high < by) × (by ≤ 2 ^ 63) }
    ensures { Divides w by result }
{
    let mut rest = w.high;
    let mut low = w.low;
    for _ in 0..64u32 {
        rest = 2 * rest + (low >> 63);
        low = low << 1;
        if by <= rest {
            rest -= by;
            low += 1;
        }
    }
    Division {
        quotient: low,
        rest,
    }
}

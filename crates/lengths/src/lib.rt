// Signed whole numbers in units of 0.00001 mm, the only place where a raw i64 is added. A number is wrapped so that a
// caller's proof speaks of its contract and not of the bits of an i64.
#![tactic(auto)]

mod points;
mod printing;

ghost use Rattle.std.specs.Prelude.{◌≡◌, ◌+◌, ◌<◌, ◌^◌};
ghost use Rattle.terms.specs.Common.{le_z, lt_z};
ghost use Rattle.lengths.specs.Serving.{Room, Is, Counted, Sum, Difference, Negation, Apart, Product, Read};
ghost use Rattle.lengths.specs.{Units.len, Units.sq, Units.halved, Units.fits_four, Units.four_bytes, View.over, View.under, View.Within, View.Short};

pub use points::{at_height, in_plane, is_inside, moved, moved_back};

#[derive(Clone, Copy)]
pub struct Len {
    pub v: i64,
}

impl Len {
    pub fn of(v: i64) -> Len
        ensures { Is v result }
    {
        Len { v }
    }

    pub fn zero() -> Len
        ensures { Counted 0 result }
    {
        Len { v: 0 }
    }

    // A count as a length: the half of the u64s that an i64 holds too.
    pub fn of_count(n: u64) -> Len
        requires { n < 2 ^ 63 }
        ensures { Counted n result }
    {
        Len { v: n as i64 }
    }

    pub fn plus(self, b: Len) -> Len
        requires { Room (over self.v + over b.v) (under self.v + under b.v) }
        ensures { Sum self b result }
    {
        Len { v: self.v + b.v }
    }

    pub fn minus(self, b: Len) -> Len
        requires { Room (over self.v + under b.v) (under self.v + over b.v) }
        ensures { Difference self b result }
    {
        Len { v: self.v - b.v }
    }

    // Only the least i64 has no negation.
    pub fn negated(self) -> Len
        requires { under self.v < over self.v + 2 ^ 63 }
        ensures { Negation self result }
    {
        Len { v: -self.v }
    }

    // The number counted from the least i64 up. Callers compare keys, since what a test of two u64s tells is a fact that
    // a proof reads at once.
    pub fn key(self) -> u64
        ensures { result + under self.v ≡ over self.v + 2 ^ 63 }
    {
        let v = self.v;
        if v < 0 {
            (v - (-9223372036854775808)) as u64
        } else {
            v as u64 + 9223372036854775808
        }
    }

    pub fn at_most(self, b: Len) -> bool
        ensures { result ≡ le_z self.v b.v }
    {
        self.v <= b.v
    }

    pub fn below(self, b: Len) -> bool
        ensures { result ≡ lt_z self.v b.v }
    {
        self.v < b.v
    }

    // How far two lengths are apart, which may take all 64 bits.
    pub fn apart(self, b: Len) -> u64
        ensures { Apart self b result }
    {
        let x = self.key();
        let y = b.key();
        if x <= y { y - x } else { x - y }
    }

    // The square of the distance from 0, so that no product of signed numbers is needed.
    pub fn square(self) -> u64
        requires { Within 4294967295 self.v }
        ensures { result ≡ sq self.v }
    {
        let n = self.apart(Len::zero());
        n * n
    }

    // Half of the number, rounded down: the key is the number plus 2 ^ 63, so half of it is half of the number plus 2 ^ 62.
    pub fn halved(self) -> Len
        ensures { result ≡ len (halved self.v) }
    {
        let half = Len::of_count(self.key() / 2);
        half.minus(Len::of_count(4611686018427387904))
    }

    pub fn times(self, b: Len) -> Len
        requires { (Within 2147483647 self.v) × (Within 2147483647 b.v) }
        ensures { Product self b result }
    {
        Len { v: self.v * b.v }
    }

    pub fn fits_four(self) -> bool
        ensures { result ≡ fits_four self.v }
    {
        let v = self.v;
        (-2147483648 <= v) & (v <= 2147483647)
    }

    // The four bytes of the number in the list, the little end first. The key is the number plus a multiple of 2 ^ 32, so
    // its low 32 bits are the word that stands for the number.
    pub fn bytes(self) -> [u8; 4]
        requires { Short self.v }
        ensures { result ≡ four_bytes self.v }
    {
        let w = self.key() % 4294967296;
        [
            (w % 256) as u8,
            (w / 256 % 256) as u8,
            (w / 65536 % 256) as u8,
            (w / 16777216 % 256) as u8,
        ]
    }

    // The number that four bytes of the list stand for: the upper half of the words are the numbers below 0.
    pub fn of_bytes(a: u8, b: u8, c: u8, d: u8) -> Len
        ensures { Read a b c d result }
    {
        let n = a as u64 + 256 * (b as u64) + 65536 * (c as u64) + 16777216 * (d as u64);
        if n < 2147483648 {
            Len { v: n as i64 }
        } else {
            Len {
                v: n as i64 - 4294967296,
            }
        }
    }
}

// Points of the machine, one length for each axis. Another axis is added here.
#[derive(Clone, Copy)]
pub struct Point {
    pub x: Len,
    pub y: Len,
    pub z: Len,
}

// A point or a direction in a plane, by the plane's first and second axis.
#[derive(Clone, Copy)]
pub struct Flat {
    pub first: Len,
    pub second: Len,
}

// The box that the tool may not leave.
#[derive(Clone, Copy)]
pub struct Travel {
    pub low: Point,
    pub high: Point,
}

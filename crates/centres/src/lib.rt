// The centre of an arc that is given by its radius. The rules stand in specs/.
#![tactic(auto)]

ghost use Rattle.std.specs.Prelude.{◌≡◌, ◌≤◌, ◌+ℤ◌};
ghost use Rattle.terms.specs.Common.{ℕ};
ghost use Rattle.lengths.specs.{Units.len, Near.FlatNear};
ghost use Rattle.arcs.specs.Arcs.{distance²};
ghost use Rattle.centres.specs.Bounds.{Chord, Spanned, Shares, Part, Parted, Scaled, Coordinates};
ghost use Rattle.centres.specs.Centres.{radius_holds, across, coordinate, centre_by};

use lengths::{Flat, Len};
use wide::Division;

// Whether a circle of the radius goes through start and end. An end may lie 3,200,000,000 units away, and the square of that
// does not fit: where it is further than twice the radius on one axis, it is further than that; else each axis is at most
// 2,000,000,000, and the chord's square at most 8,000,000,000,000,000,000.
pub fn radius_holds(r: Len, from: Flat, to: Flat) -> bool
    requires { Chord r.v from to }
    ensures { result ≡ radius_holds r.v from to }
{
    let size = r.apart(Len::zero());
    if size < 3000 {
        return false;
    }
    if 2 * size < to.first.apart(from.first) {
        return false;
    }
    if 2 * size < to.second.apart(from.second) {
        return false;
    }
    let chord = arcs::squared_distance(from, to);
    (0 < chord) & (chord <= 4 * r.square())
}

// The squares of q's coordinates come to d, so the two shares of n come to n: the second one needs no division of its own. Where
// the first division leaves a rest, the two rests come to d, and the quotients to one less than n.
fn other_share(n: u64, d: u64, share: Division) -> Division
    requires { Part n d share }
    ensures { Parted n d share result }
{
    let left = n - share.quotient;
    if share.rest == 0 {
        return Division {
            quotient: left,
            rest: 0,
        };
    }
    Division {
        quotient: left - 1,
        rest: d - share.rest,
    }
}

// q times the root of n / d, rounded down: the root of q's share of n, which is the square of q times n, divided by d. The root is
// exact where the division is and the root of its quotient; below 0 it is else one more.
fn scaled_root(q: Len, share: Division) -> Len
    requires { share.quotient ≤ 4_000_000_000_000_000_000 }
    ensures { Scaled q.v share result }
{
    let m = arcs::root_of(share.quotient);
    if Len::zero().at_most(q) {
        return Len::of_count(m);
    }
    if (share.rest == 0) & (m * m == share.quotient) {
        return Len::of_count(m).negated();
    }
    Len::of_count(m + 1).negated()
}

// One coordinate of the centre: of start and end, of the way across, and its share.
fn coordinate(from: Len, to: Len, q: Len, share: Division) -> Len
    requires { Coordinates from to share }
    ensures { (n d : ℕ) → Shares q.v n d share → result ≡ len (coordinate (from.v +ℤ to.v) q.v n d) }
{
    from.plus(to).plus(scaled_root(q, share)).halved()
}

// The way from start to end turned by a quarter, to its left or its right.
fn across(left: bool, way: Flat) -> Flat
    requires { FlatNear 3_200_000_000 way }
    ensures { result ≡ across left way }
{
    let a = way.first;
    let b = way.second;
    if left {
        return Flat {
            first: b.negated(),
            second: a,
        };
    }
    Flat {
        first: b,
        second: a.negated(),
    }
}

// The centre, to the left of the way from start to end or to its right. The square of each coordinate of q is at most d, so each
// share is at most n, while the product needs 122 bits.
pub fn centre_by(left: bool, r: Len, from: Flat, to: Flat) -> Flat
    requires { Spanned r.v from to }
    ensures { result ≡ centre_by left r.v from to }
{
    let way = Flat {
        first: to.first.minus(from.first),
        second: to.second.minus(from.second),
    };
    let q = across(left, way);
    let d = arcs::squared_distance(from, to);
    let n = 4 * r.square() - d;
    let first = wide::divided(wide::product(q.first.square(), n), d);
    let second = other_share(n, d, first);
    Flat {
        first: coordinate(from.first, to.first, q.first, first),
        second: coordinate(from.second, to.second, q.second, second),
    }
}

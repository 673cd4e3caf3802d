// Arcs: the root of the radius and the end's tolerance. The rules stand in specs/, those of the path among them.
#![tactic(auto)]

mod staying;

ghost use Rattle.std.specs.Prelude.{◌≡◌, ◌&&◌, ◌*◌, ◌^◌, ◌≤◌};
ghost use Rattle.lengths.specs.{Units.fits_four, Near.Near, Points.flat};
ghost use Rattle.records.specs.{Path.arc_moved, Displacing.LooseArc};
ghost use Rattle.arcs.specs.Arcs.{distance², centre_of, radius², round_enough, arc_holds};
ghost use Rattle.arcs.specs.{Root.root, Turning.left, Bounds.Reach};

use lengths::{Flat, Point};
use records::Arc;
pub use staying::{from_centre, is_left, is_on_left_way, left_arc_stays, right_arc_stays};

// The root as taught by hand, in binary: two digits of q at a time are brought down to what is left of the number, and
// the root gets one digit more. At each step `rest` is what the digits brought down so far are above the square of r, so
// it is at most 2 r, and r is below 2 ^ 32.
pub fn root_of(q: u64) -> u64
    ensures { result ≡ root q }
{
    let mut r: u64 = 0;
    let mut rest: u64 = 0;
    for pairs in (0..32u32).rev() {
        rest = 4 * rest + (q >> (2 * pairs)) % 4;
        r = 2 * r;
        if 2 * r < rest {
            rest -= 2 * r + 1;
            r += 1;
        }
    }
    r
}

// Each of the two squares is at most 9,000,000,000,000,000,000, so that their sum is below 2 ^ 64. In a run an axis is at
// most 1,000,000,000 from the centre to a start, and 1,414,214,562 to an end.
pub fn squared_distance(a: Flat, b: Flat) -> u64
    requires { Reach 3_000_000_000 a b }
    ensures { result ≡ distance² a b }
{
    b.first.minus(a.first).square() + b.second.minus(a.second).square()
}

pub fn centre_of(a: Arc) -> Flat
    ensures { result ≡ centre_of a }
{
    let first = a.first;
    let second = a.second;
    Flat { first, second }
}

// At most 2,000,000,000,000,000,000, which is below 2 ^ 61.
pub fn squared_radius(from: Point, a: Arc) -> u64
    requires { Reach 1_000_000_000 (centre_of a) (flat a.plane from) }
    ensures { result ≡ radius² from a }
{
    let plane = a.plane;
    squared_distance(centre_of(a), lengths::in_plane(plane, from))
}

// The square of a number below 2 ^ 32 fits.
fn squared(n: u64) -> u64
    requires { n ≤ 4_294_967_295 }
    ensures { result ≡ n * n }
{
    n * n
}

// In a run r is at most 1,414,213,562. The bound leaves room for the tolerance.
fn is_round_enough(r: u64, square: u64) -> bool
    requires { r ≤ 4_000_000_000 }
    ensures { result ≡ round_enough r square }
{
    if r < 2000 {
        return false;
    }
    (squared(r - 1000) <= square) & (square <= squared(r + 1000))
}

// An end may lie thousands of millions of units away before it is refused. Where it is further than r + 1,000 on one axis,
// it is further than that; else each axis is at most 1,414,214,562, and the squares fit.
pub fn arc_holds(from: Point, a: Arc) -> bool
    requires { Reach 1_000_000_000 (centre_of a) (flat a.plane from) }
    ensures { result ≡ arc_holds from a }
{
    let plane = a.plane;
    let centre = centre_of(a);
    let at = lengths::in_plane(plane, a.end);
    let r = root_of(squared_radius(from, a));
    if r + 1000 < at.first.apart(centre.first) {
        return false;
    }
    if r + 1000 < at.second.apart(centre.second) {
        return false;
    }
    is_round_enough(r, squared_distance(centre, at))
}

// Whether an arc can be written in machine units: the numbers of its centre fit four bytes there.
pub fn centre_fits(by: Point, a: Arc) -> bool
    requires { (Near (2 ^ 61) by) × LooseArc a }
    ensures { result ≡ (fits_four (arc_moved by a).first.v && fits_four (arc_moved by a).second.v) }
{
    let moved = records::displaced_arc(by, a);
    moved.first.fits_four() & moved.second.fits_four()
}

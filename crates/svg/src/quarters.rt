// Directions from the centre of an arc, a quarter of a turn after the other, and the points where they lead.
ghost use Rattle.std.specs.Prelude.{◌≤◌, ◌≡◌};
ghost use Rattle.arcs.specs.Bounds.{Small};
ghost use Rattle.svg.specs.Turns.{quarter_on, onward, soon, point_on, radius_of, near, drawable, Drawable};

use codes::Plane;
use lengths::{Flat, Len, Point};
use records::Arc;

fn is_near(a: Len, b: Len) -> bool
    ensures { result ≡ near a b }
{
    a.apart(b) <= 1_500_000_000
}

// Whether the numbers of an arc leave room for what is worked out of them.
pub fn is_drawable(from: Point, a: Arc) -> bool
    ensures { result ≡ drawable from a }
{
    let plane = a.plane;
    let start = lengths::in_plane(plane, from);
    let last = lengths::in_plane(plane, a.end);
    is_near(start.first, a.first)
        & is_near(start.second, a.second)
        & (is_near(last.first, a.first) & is_near(last.second, a.second))
        & (a.first.fits_four() & a.second.fits_four())
}

// The root of at most 4,500,000,000,000,000,000 is below 2 ^ 31.
pub fn radius_of(from: Point, a: Arc) -> u64
    requires { Drawable from a }
    ensures { (result ≡ radius_of from a) × (result ≤ 2_147_483_647) }
{
    let plane = a.plane;
    arcs::root_of(arcs::squared_distance(arcs::centre_of(a), lengths::in_plane(plane, from)))
}

// The turn of `centres::across`, and its bound with it: who draws an arc turns the same direction again and again.
pub fn quarter_on(turn: bool, d: Flat) -> Flat
    requires { Small d }
    ensures { (result ≡ quarter_on turn d) × Small result }
{
    let first = d.first;
    let second = d.second;
    if turn {
        return Flat {
            first: second.negated(),
            second: first,
        };
    }
    Flat {
        first: second,
        second: first.negated(),
    }
}

fn is_onward(turn: bool, d: Flat, w: Flat) -> bool
    requires { (Small d) × (Small w) }
    ensures { result ≡ onward turn d w }
{
    if turn {
        return arcs::is_left(d, w);
    }
    arcs::is_left(w, d)
}

pub fn is_soon(turn: bool, d: Flat, w: Flat) -> bool
    requires { (Small d) × (Small w) }
    ensures { result ≡ soon turn d w }
{
    is_onward(turn, d, w) & !is_onward(turn, quarter_on(turn, d), w)
}

pub fn point_on(from: Point, a: Arc, d: Flat) -> Point
    requires { (Drawable from a) × (Small d) }
    ensures { result ≡ point_on from a d }
{
    let plane = a.plane;
    let first = a.first.plus(d.first);
    let second = a.second.plus(d.second);
    let x = from.x;
    let y = from.y;
    let z = from.z;
    match plane {
        Plane::G17 => Point {
            x: first,
            y: second,
            z,
        },
        Plane::G18 => Point {
            x: second,
            y,
            z: first,
        },
        Plane::G19 => Point {
            x,
            y: first,
            z: second,
        },
    }
}

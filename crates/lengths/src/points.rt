// Points of the machine: at another height, in a plane, in the travel, displaced and back.
ghost use Rattle.std.specs.Prelude.{◌≡◌, ◌^◌};
ghost use Rattle.lengths.specs.{Points.at_height, Points.flat, Points.inside, Near.Near, Near.Moved, Near.MovedBack};

use crate::{Flat, Len, Point, Travel};
use codes::Plane;

// X and Y of a point, at another height.
pub fn at_height(p: Point, level: Len) -> Point
    ensures { result ≡ at_height p level }
{
    let x = p.x;
    let y = p.y;
    Point { x, y, z: level }
}

// A point by the first and second axis of a plane.
pub fn in_plane(plane: Plane, p: Point) -> Flat
    ensures { result ≡ flat plane p }
{
    let x = p.x;
    let y = p.y;
    let z = p.z;
    match plane {
        Plane::G17 => Flat {
            first: x,
            second: y,
        },
        Plane::G18 => Flat {
            first: z,
            second: x,
        },
        Plane::G19 => Flat {
            first: y,
            second: z,
        },
    }
}

pub fn is_inside(t: Travel, p: Point) -> bool
    ensures { result ≡ inside t p }
{
    t.low.x.at_most(p.x)
        & p.x.at_most(t.high.x)
        & (t.low.y.at_most(p.y) & p.y.at_most(t.high.y))
        & (t.low.z.at_most(p.z) & p.z.at_most(t.high.z))
}

// The bound leaves every sum of two coordinates room in 64 bits; a run's coordinates are far below it.
pub fn moved(by: Point, p: Point) -> Point
    requires { (Near (2 ^ 61) by) × (Near (2 ^ 61) p) }
    ensures { Moved by p result }
{
    Point {
        x: p.x.plus(by.x),
        y: p.y.plus(by.y),
        z: p.z.plus(by.z),
    }
}

pub fn moved_back(by: Point, p: Point) -> Point
    requires { (Near (2 ^ 61) by) × (Near (2 ^ 61) p) }
    ensures { MovedBack by p result }
{
    Point {
        x: p.x.minus(by.x),
        y: p.y.minus(by.y),
        z: p.z.minus(by.z),
    }
}

// Arcs and the travel: an arc stays in it where its end does and every extreme that it passes.
ghost use Rattle.std.specs.Prelude.{◌≡◌};
ghost use Rattle.terms.specs.Common.{lt_z, pos};
ghost use Rattle.lengths.specs.Points.{flat};
ghost use Rattle.arcs.specs.Arcs.{centre_of, not_above, not_below, coordinate_inside, extreme_inside, towards, extremes_inside, left_way, right_way, arc_stays};
ghost use Rattle.arcs.specs.Bounds.{Close, Reach, Small, Bounds, Accepted, Direction, Framed};
ghost use Rattle.arcs.specs.{Root.root, Turning.dot, Turning.left, Turning.on_left_way};

use lengths::{Flat, Len, Point, Travel};
use records::Arc;

// From the centre of an arc to a point.
pub fn from_centre(a: Arc, p: Point) -> Flat
    requires { Reach 2_147_483_647 (centre_of a) (flat a.plane p) }
    ensures { Direction (centre_of a) (flat a.plane p) result }
{
    let plane = a.plane;
    let centre = crate::centre_of(a);
    let at = lengths::in_plane(plane, p);
    Flat {
        first: at.first.minus(centre.first),
        second: at.second.minus(centre.second),
    }
}

// Each product is below 2 ^ 62, so their difference is a number of 64 bits with a sign. (In a run no axis of a direction
// is above 1,414,214,562.)
pub fn is_left(a: Flat, b: Flat) -> bool
    requires { (Small a) × (Small b) }
    ensures { result ≡ left a b }
{
    let turn = a.first.times(b.second).minus(a.second.times(b.first));
    Len::zero().below(turn)
}

// Whether two directions are less than a quarter of a turn apart. The products have the same bound.
fn is_ahead(a: Flat, b: Flat) -> bool
    requires { (Small a) × (Small b) }
    ensures { result ≡ lt_z (pos 0) (dot a b) }
{
    let along = a.first.times(b.first).plus(a.second.times(b.second));
    Len::zero().below(along)
}

// Whether a direction, given by its two axes, lies on the way from u to w that turns left.
pub fn is_on_left_way(u: Flat, w: Flat, first: Len, second: Len) -> bool
    requires { (Small u) × (Small w) × (Small (towards first.v second.v)) }
    ensures { result ≡ on_left_way u w (towards first.v second.v) }
{
    let d = Flat { first, second };
    if is_left(u, w) {
        return !is_left(d, u) & !is_left(w, d);
    }
    if is_left(w, u) {
        return !(is_left(w, d) & is_left(d, u));
    }
    is_ahead(u, w) | !is_left(d, u)
}

// Whether a plus the root of q is not above b. The square of a difference of at most 4,294,967,295 fits 64 bits without a
// sign; in a run the difference is at most 1,200,000,000.
fn root_stays_below(a: Len, q: u64, b: Len) -> bool
    requires { Close 4_294_967_295 a b }
    ensures { result ≡ not_above a q b }
{
    a.at_most(b) & (q <= b.minus(a).square())
}

// Whether a plus the root of q is not below b.
fn root_reaches(a: Len, q: u64, b: Len) -> bool
    requires { Close 4_294_967_295 a b }
    ensures { result ≡ not_below a q b }
{
    b.at_most(a) | (b.minus(a).square() <= q)
}

// Whether the coordinate on one axis of an extreme lies between the travel's ends, where `way` is its direction's number
// on that axis. Minus the root is tested with the root on the other side.
fn is_coordinate_inside(way: Len, centre: Len, q: u64, low: Len, high: Len) -> bool
    requires { (Close 4_294_967_295 low centre) × (Close 4_294_967_295 high centre) }
    ensures { result ≡ coordinate_inside way.v centre q low high }
{
    let none = Len::zero();
    if none.below(way) {
        return root_reaches(centre, q, low) & root_stays_below(centre, q, high);
    }
    if way.below(none) {
        return root_stays_below(low, q, centre) & root_reaches(high, q, centre);
    }
    low.at_most(centre) & centre.at_most(high)
}

// Whether the extreme of the circle of squared radius q in a direction, given by its two axes, is inside.
fn is_extreme_inside(first: Len, second: Len, centre: Flat, q: u64, low: Flat, high: Flat) -> bool
    requires { (Reach 4_294_967_295 low centre) × (Reach 4_294_967_295 high centre) }
    ensures { result ≡ extreme_inside centre q low high (towards first.v second.v) }
{
    is_coordinate_inside(first, centre.first, q, low.first, high.first)
        & is_coordinate_inside(second, centre.second, q, low.second, high.second)
}

// Whether the extremes of the circle of squared radius q that the way from u to w passes are inside.
fn are_extremes_inside(u: Flat, w: Flat, centre: Flat, q: u64, low: Flat, high: Flat) -> bool
    requires { Framed u w centre low high }
    ensures { result ≡ extremes_inside (on_left_way u w) centre q low high }
{
    let none = Len::zero();
    let up = Len::of(1);
    let down = Len::of(-1);
    let first_up = is_on_left_way(u, w, up, none);
    let second_up = is_on_left_way(u, w, none, up);
    let first_down = is_on_left_way(u, w, down, none);
    let second_down = is_on_left_way(u, w, none, down);
    (!first_up | is_extreme_inside(up, none, centre, q, low, high))
        & (!second_up | is_extreme_inside(none, up, centre, q, low, high))
        & (!first_down | is_extreme_inside(down, none, centre, q, low, high))
        & (!second_down | is_extreme_inside(none, down, centre, q, low, high))
}

// Whether an arc stays in the travel, where its path turns left from the direction u to the direction w.
fn way_stays(t: Travel, from: Point, a: Arc, u: Flat, w: Flat) -> bool
    requires { (Bounds t from a) × (Small u) × (Small w) }
    ensures { result ≡ arc_stays (λ p b. on_left_way u w) t from a }
{
    let plane = a.plane;
    let low = lengths::in_plane(plane, t.low);
    let high = lengths::in_plane(plane, t.high);
    lengths::is_inside(t, a.end)
        & are_extremes_inside(
            u,
            w,
            crate::centre_of(a),
            crate::squared_radius(from, a),
            low,
            high,
        )
}

// Counter-clockwise, from the start to the end.
pub fn left_arc_stays(t: Travel, from: Point, a: Arc) -> bool
    requires { Accepted t from a }
    ensures { result ≡ arc_stays left_way t from a }
{
    way_stays(t, from, a, from_centre(a, from), from_centre(a, a.end))
}

// Clockwise the path is the same as counter-clockwise from the end to the start.
pub fn right_arc_stays(t: Travel, from: Point, a: Arc) -> bool
    requires { Accepted t from a }
    ensures { result ≡ arc_stays right_way t from a }
{
    way_stays(t, from, a, from_centre(a, a.end), from_centre(a, from))
}

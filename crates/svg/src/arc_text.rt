// An arc as SVG text: round where its plane is seen from the front, and from its edge as the straight line that it is from there.
ghost use Rattle.std.specs.Prelude.{◌≡◌};
ghost use Rattle.terms.specs.Common.{pos};
ghost use Rattle.arcs.specs.{Arcs.towards, Bounds.Small};
ghost use Rattle.svg.specs.ArcText.{Ready, is_round, turn_seen, piece, seen_arc, seen_on, quarters, passes, extremes, bend, arc};
ghost use Rattle.svg.specs.{Text.Fills, Turns.Drawable};

use crate::forms::{put_form, put_text};
use crate::quarters::{is_drawable, is_soon, point_on, quarter_on, radius_of};
use crate::views::{put_line, seen};
use crate::{SeenArc, View};
use codes::Plane;
use lengths::{Flat, Len, Point};
use records::Arc;

fn is_round(view: View, plane: Plane) -> bool
    ensures { result ≡ is_round view plane }
{
    matches!(
        (view, plane),
        (View::Above, Plane::G17) | (View::Side, Plane::G18)
    )
}

fn turn_seen(view: View, turn: bool) -> bool
    ensures { result ≡ turn_seen view turn }
{
    match view {
        View::Above => turn,
        View::Side => !turn,
    }
}

fn seen_arc(view: View, from: Point, a: Arc, turn: bool) -> SeenArc
    requires { Drawable from a }
    ensures { (result ≡ seen_arc view from a turn) × Ready result }
{
    let end = a.end;
    SeenArc {
        view,
        from,
        arc: a,
        turn,
        start: arcs::from_centre(a, from),
        end: arcs::from_centre(a, end),
        radius: Len::of_count(radius_of(from, a)),
    }
}

fn put_piece(out: &mut [u8], at: usize, s: SeenArc, to: Flat) -> usize
    ensures { Fills out.old at (piece s to) out.new result }
{
    let view = s.view;
    let radius = s.radius;
    let radii = Flat {
        first: radius,
        second: radius,
    };
    if turn_seen(view, s.turn) {
        return put_form(out, at, b"A_ _ 0 0 1 _ _", radii, to);
    }
    put_form(out, at, b"A_ _ 0 0 0 _ _", radii, to)
}

// Where a direction from the centre leads, as it is seen.
fn seen_on(s: SeenArc, d: Flat) -> Flat
    requires { (Ready s) × (Small d) }
    ensures { result ≡ seen_on s d }
{
    let view = s.view;
    seen(view, point_on(s.from, s.arc, d))
}

// From quarter to quarter, until the end is at most a quarter on.
fn put_quarters(out: &mut [u8], at: usize, s: SeenArc) -> usize
    requires { Ready s }
    ensures { Fills out.old at (quarters s 3 s.start) out.new result }
{
    let mut next = at;
    let mut d = s.start;
    for _ in 0..3u32 {
        if is_soon(s.turn, d, s.end) {
            return next;
        }
        d = quarter_on(s.turn, d);
        next = put_piece(out, next, s, seen_on(s, d));
    }
    next
}

// Whether the path passes a direction.
fn is_passed(s: SeenArc, e: Flat) -> bool
    requires { (Ready s) × (Small e) }
    ensures { result ≡ passes s e }
{
    if s.turn {
        return arcs::is_on_left_way(s.start, s.end, e.first, e.second);
    }
    arcs::is_on_left_way(s.end, s.start, e.first, e.second)
}

fn put_extremes(out: &mut [u8], at: usize, s: SeenArc) -> usize
    requires { Ready s }
    ensures { Fills out.old at (extremes s 4 (towards s.radius.v (pos 0))) out.new result }
{
    let radius = s.radius;
    let mut next = at;
    let mut e = Flat {
        first: radius,
        second: Len::zero(),
    };
    for _ in 0..4u32 {
        let here = e;
        e = quarter_on(true, e);
        if !is_passed(s, here) {
            continue;
        }
        let to = seen_on(s, here);
        next = put_form(out, next, b"L_ _", to, to);
    }
    next
}

fn put_bend(out: &mut [u8], at: usize, s: SeenArc) -> usize
    requires { Ready s }
    ensures { Fills out.old at (bend s) out.new result }
{
    let view = s.view;
    let arc = s.arc;
    let plane = arc.plane;
    let end = seen(view, arc.end);
    if is_round(view, plane) {
        let turned = put_quarters(out, at, s);
        return put_piece(out, turned, s, end);
    }
    let reached = put_extremes(out, at, s);
    put_form(out, reached, b"L_ _", end, end)
}

pub fn put_arc(out: &mut [u8], at: usize, view: View, from: Point, a: Arc, turn: bool) -> usize
    ensures { Fills out.old at (arc view from a turn) out.new result }
{
    if !is_drawable(from, a) {
        return put_line(out, at, view, from, a.end);
    }
    let start = seen(view, from);
    let begun = put_form(out, at, b"<path d=\"M_ _", start, start);
    let last = put_bend(out, begun, seen_arc(view, from, a, turn));
    put_text(out, last, b"\"/>\n")
}

// The path of a record list as SVG text, rapids and cuts in two layers.
ghost use Rattle.std.specs.Prelude.{◌≡◌};
ghost use Rattle.svg.specs.{Text.Fills, Lines.seen_from};
ghost use Rattle.drawing.specs.{Shapes.same, Shapes.cut, Shapes.as_cut, Shapes.drawn, Shapes.path, Walks.records_from, Walks.end_from};

use lengths::{Flat, Point};
use records::{Listed, Record};
use svg::{View, put_arc, put_form, put_line, seen};

fn is_same(a: Flat, b: Flat) -> bool
    ensures { result ≡ same a b }
{
    (a.first.apart(b.first) == 0) & (a.second.apart(b.second) == 0)
}

// A cut along the line of sight is seen as a dot.
fn put_cut(out: &mut [u8], at: usize, view: View, from: Point, to: Point) -> usize
    ensures { Fills out.old at (cut (seen_from view from) (seen_from view to)) out.new result }
{
    let end = seen(view, to);
    if is_same(seen(view, from), end) {
        return put_form(out, at, b"<path class=\"p\" d=\"M_ _h0\"/>\n", end, end);
    }
    put_line(out, at, view, from, to)
}

fn put_as_cut(out: &mut [u8], at: usize, view: View, from: Point, r: Record) -> usize
    ensures { Fills out.old at (as_cut view from r) out.new result }
{
    match r {
        Record::LN(p, _) => put_cut(out, at, view, from, p),
        Record::AR(a) => put_arc(out, at, view, from, a, false),
        Record::AL(a) => put_arc(out, at, view, from, a, true),
        _ => at,
    }
}

// Only rapids, or only what is no rapid.
fn put_record(out: &mut [u8], at: usize, view: View, rapids: bool, from: Point, r: Record) -> usize
    ensures { Fills out.old at (drawn view rapids from r) out.new result }
{
    if !rapids {
        return put_as_cut(out, at, view, from, r);
    }
    match r {
        Record::RP(p) => put_line(out, at, view, from, p),
        _ => at,
    }
}

// What the reader says after the last record that it can read.
pub fn last_of(list: &[u8]) -> Listed
    ensures { result ≡ end_from list.now 0 }
{
    let mut at: usize = 0;
    loop {
        let found = records::read(list, at);
        let Listed::Next(_, next) = found else {
            return found;
        };
        at = next;
    }
}

pub fn put_path(
    out: &mut [u8],
    at: usize,
    view: View,
    rapids: bool,
    start: Point,
    list: &[u8],
) -> usize
    ensures { Fills out.old at (path view rapids start (records_from list.now 0)) out.new result }
{
    let mut next = at;
    let mut place: usize = 0;
    let mut from = start;
    while let Listed::Next(r, after) = records::read(list, place) {
        next = put_record(out, next, view, rapids, from, r);
        from = records::path_end(from, r);
        place = after;
    }
    next
}

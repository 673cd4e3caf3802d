// Points as they are seen, and lines as SVG text, in units.
ghost use Rattle.std.specs.Prelude.{◌≡◌};
ghost use Rattle.svg.specs.{Text.Fills, Lines.seen_from, Lines.line};

use crate::View;
use crate::forms::put_form;
use lengths::{Flat, Point};

pub fn seen(view: View, p: Point) -> Flat
    ensures { result ≡ seen_from view p }
{
    let x = p.x;
    let y = p.y;
    let z = p.z;
    match view {
        View::Above => Flat {
            first: x,
            second: y,
        },
        View::Side => Flat {
            first: x,
            second: z,
        },
    }
}

pub fn put_line(out: &mut [u8], at: usize, view: View, from: Point, to: Point) -> usize
    ensures { Fills out.old at (line (seen_from view from) (seen_from view to)) out.new result }
{
    let start = seen(view, from);
    let end = seen(view, to);
    put_form(out, at, b"<path d=\"M_ _L_ _\"/>\n", start, end)
}

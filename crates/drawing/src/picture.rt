// Pictures of a record list, as SVG text: the path seen from above and from the side, in units.
ghost use Rattle.std.specs.Prelude.{◌≤◌, ◌≡◌};
ghost use Rattle.terms.specs.Common.{true};
ghost use Rattle.setup.specs.Limits.{valid_setup};
ghost use Rattle.lengths.specs.Near.{Near};
ghost use Rattle.svg.specs.Text.{Fills};
ghost use Rattle.drawing.specs.Picture.{sheet_of, gap_of, Fair, corner_of, size_of, down_of, marks, view_of, opening, shift, picture_of, Draws};
ghost use Rattle.drawing.specs.Walks.{records_from};

use crate::layers::{last_of, put_path};
use crate::{Sheet, Undrawn};
use lengths::{Flat, Len, Point};
use records::Listed;
use setup::Setup;
use svg::{View, put_form, put_text, seen};

// The travel as a frame and the start, and the group of the rapids opened.
fn put_marks(out: &mut [u8], at: usize, view: View, sh: Sheet) -> usize
    ensures { Fills out.old at (marks view sh) out.new result }
{
    let low = seen(view, sh.low);
    let high = seen(view, sh.high);
    let start = seen(view, sh.start);
    let next = put_form(
        out,
        at,
        b"<path class=\"f\" d=\"M_ _H_V_H_z\"/>\n",
        low,
        high,
    );
    put_form(
        out,
        next,
        b"<path class=\"s\" d=\"M_ _h0\"/>\n<g class=\"r\">\n",
        start,
        start,
    )
}

// Cuts are drawn over rapids, since a tool often leaves by the way it came.
fn put_view(out: &mut [u8], at: usize, view: View, sh: Sheet, list: &[u8]) -> usize
    ensures { Fills out.old at (view_of view sh (records_from list.now 0)) out.new result }
{
    let rapids = put_marks(out, at, view, sh);
    let end = put_path(out, rapids, view, true, sh.start, list);
    let cuts = put_text(out, end, b"</g>\n<g class=\"c\">\n");
    put_path(out, cuts, view, false, sh.start, list)
}

fn corner_of(sh: Sheet) -> Flat
    requires { Fair sh }
    ensures { result ≡ corner_of sh }
{
    let gap = Len::of_count(sh.gap);
    Flat {
        first: sh.low.x.minus(gap),
        second: sh.high.y.plus(gap).negated(),
    }
}

fn size_of(sh: Sheet) -> Flat
    requires { Fair sh }
    ensures { result ≡ size_of sh }
{
    let two = Len::of_count(2 * sh.gap);
    let three = Len::of_count(3 * sh.gap);
    Flat {
        first: sh.high.x.minus(sh.low.x).plus(two),
        second: sh
            .high
            .y
            .minus(sh.low.y)
            .plus(sh.high.z.minus(sh.low.z))
            .plus(three),
    }
}

fn down_of(sh: Sheet) -> Flat
    requires { Fair sh }
    ensures { result ≡ down_of sh }
{
    Flat {
        first: Len::zero(),
        second: sh.high.z.minus(sh.low.y).plus(Len::of_count(sh.gap)),
    }
}

// The beginning of the text, which says what part of the plane is shown, and how: lines are thin at any scale, in browsers also
// where a part is enlarged, elsewhere in parts of the sheet.
fn put_opening(out: &mut [u8], sh: Sheet) -> usize
    requires { Fair sh }
    ensures { Fills out.old 0 (opening sh) out.new result }
{
    let corner = corner_of(sh);
    let size = size_of(sh);
    put_form(
        out,
        0,
        b"<svg xmlns=\"http://www.w3.org/2000/svg\" viewBox=\"_ _ _ _\">\n<style>svg{background:#fff}path{fill:none}.f{stroke:#999;stroke-width:.1%}.s{stroke:#6c6;stroke-width:1.2%;stroke-linecap:round}.r{stroke:#c60;stroke-width:.1%;stroke-dasharray:.4% .3%}.c{stroke:#036;stroke-width:.2%}.p{stroke-width:.6%;stroke-linecap:round}@supports(vector-effect:non-scaling-stroke){path{vector-effect:non-scaling-stroke}.f{stroke-width:1px}.s{stroke-width:14px}.r{stroke-width:1px;stroke-dasharray:4px 3px}.c{stroke-width:2px}.p{stroke-width:6px}}</style>\n<g transform=\"scale(1 -1)\">\n",
        corner,
        size,
    )
}

fn put_shift(out: &mut [u8], at: usize, sh: Sheet) -> usize
    requires { Fair sh }
    ensures { Fills out.old at (shift sh) out.new result }
{
    let down = down_of(sh);
    put_form(
        out,
        at,
        b"</g>\n</g>\n<g transform=\"matrix(1 0 0 -1 _ _)\">\n",
        down,
        down,
    )
}

fn put_picture(out: &mut [u8], sh: Sheet, list: &[u8]) -> usize
    requires { Fair sh }
    ensures { Fills out.old 0 (picture_of sh (records_from list.now 0)) out.new result }
{
    let above = put_opening(out, sh);
    let down = put_view(out, above, View::Above, sh, list);
    let side = put_shift(out, down, sh);
    let end = put_view(out, side, View::Side, sh, list);
    put_text(out, end, b"</g>\n</g>\n</svg>\n")
}

// A fortieth of the travel's three sides together, at least 4 units.
fn gap_of(low: Point, high: Point) -> u64
    requires { (Near 100_000_000 low) × (Near 100_000_000 high) }
    ensures { (result ≡ gap_of low high) × (result ≤ 20_000_000) }
{
    let sides = high.x.apart(low.x) + high.y.apart(low.y) + high.z.apart(low.z);
    sides / 40 + 4
}

fn sheet_of(s: Setup) -> Sheet
    requires { valid_setup s ≡ true }
    ensures { (result ≡ sheet_of s) × Fair result }
{
    let low = setup::point_of(s.low);
    let high = setup::point_of(s.high);
    Sheet {
        low,
        high,
        start: setup::point_of(s.start),
        gap: gap_of(low, high),
    }
}

// Draws a list under a setup into a buffer, which has to be longer than the picture, and answers the bytes written.
pub fn draw(list: &[u8], s: Setup, out: &mut [u8]) -> Result<usize, Undrawn>
    ensures { Draws list.now s out.old out.new result }
{
    if !setup::is_valid(s) {
        return Err(Undrawn::BadSetup);
    }
    if let Listed::Faulty(_, place) = last_of(list) {
        return Err(Undrawn::Faulty(place));
    }
    let n = put_picture(out, sheet_of(s), list);
    if n < out.len() {
        Ok(n)
    } else {
        Err(Undrawn::NoRoom)
    }
}

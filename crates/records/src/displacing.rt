// An arc displaced: its end and its centre by the numbers of a point, every other number as it is.
ghost use Rattle.std.specs.Prelude.{◌^◌, ◌≡◌};
ghost use Rattle.lengths.specs.Near.{Near};
ghost use Rattle.records.specs.{Displacing.LooseArc, Path.arc_moved};

use crate::Arc;
use lengths::Point;

pub fn displaced_arc(by: Point, a: Arc) -> Arc
    requires { (Near (2 ^ 61) by) × (LooseArc a) }
    ensures { result ≡ arc_moved by a }
{
    let plane = a.plane;
    let end = a.end;
    let feed = a.feed;
    let step = lengths::in_plane(plane, by);
    Arc {
        plane,
        end: lengths::moved(by, end),
        first: a.first.plus(step.first),
        second: a.second.plus(step.second),
        feed,
    }
}

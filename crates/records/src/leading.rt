// Where records lead.
ghost use Rattle.std.specs.Prelude.{◌≡◌};
ghost use Rattle.records.specs.Path.{path_of, path_end};

use crate::Record;
use lengths::Point;

// The end of a record's path that begins at a point.
pub fn path_end(from: Point, r: Record) -> Point
    ensures { result ≡ path_end from (path_of r) }
{
    match r {
        Record::RP(p) | Record::LN(p, _) => p,
        Record::AR(a) | Record::AL(a) => a.end,
        _ => from,
    }
}

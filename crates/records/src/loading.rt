// Reading the record at a place of a list. Any bytes and any place are answered.
ghost use Rattle.std.specs.Prelude.{◌+◌, ◌*◌, ◌≤◌, ◌<◌, ◌≡◌};
ghost use Rattle.terms.specs.Common.{length};
ghost use Rattle.records.specs.Layout.{point_of, arc_of, record_of, numbers_in, has_plane, head_length};
ghost use Rattle.records.specs.Reading.{kind_at, plane_for, len_at, numbers_at, read_at};

use crate::{Arc, Fault, Kind, Listed, Record};
use codes::Plane;
use lengths::{Len, Point};

// All kinds.
const KINDS: [Kind; 9] = [
    Kind::RP,
    Kind::LN,
    Kind::AR,
    Kind::AL,
    Kind::DW,
    Kind::SP,
    Kind::SO,
    Kind::PA,
    Kind::EN,
];

fn number_at(list: &[u8], at: usize) -> Len
    requires { at + 4 ≤ length list.now }
    ensures { result ≡ len_at list.now at }
{
    Len::of_bytes(list[at], list[at + 1], list[at + 2], list[at + 3])
}

fn point_at(list: &[u8], at: usize) -> Point
    requires { at + 12 ≤ length list.now }
    ensures { result ≡ point_of (numbers_at 3 list.now at) }
{
    Point {
        x: number_at(list, at),
        y: number_at(list, at + 4),
        z: number_at(list, at + 8),
    }
}

fn arc_at(list: &[u8], at: usize, plane: Plane) -> Arc
    requires { at + 24 ≤ length list.now }
    ensures { result ≡ arc_of plane (numbers_at 6 list.now at) }
{
    let end = point_at(list, at);
    Arc {
        plane,
        end,
        first: number_at(list, at + 12),
        second: number_at(list, at + 16),
        feed: number_at(list, at + 20),
    }
}

// The record of a kind whose numbers begin at a place.
fn record_at(list: &[u8], at: usize, kind: Kind, plane: Plane) -> Record
    requires { at + 4 * numbers_in kind ≤ length list.now }
    ensures { result ≡ record_of kind plane (numbers_at (numbers_in kind) list.now at) }
{
    match kind {
        Kind::RP => Record::RP(point_at(list, at)),
        Kind::LN => Record::LN(point_at(list, at), number_at(list, at + 12)),
        Kind::AR => Record::AR(arc_at(list, at, plane)),
        Kind::AL => Record::AL(arc_at(list, at, plane)),
        Kind::DW => Record::DW(number_at(list, at)),
        Kind::SP => Record::SP(number_at(list, at)),
        Kind::SO => Record::SO,
        Kind::PA => Record::PA,
        Kind::EN => Record::EN,
    }
}

// The kind whose mark stands at a place.
fn kind_at(list: &[u8], at: usize) -> Option<Kind>
    requires { at + 2 ≤ length list.now }
    ensures { result ≡ kind_at list.now at }
{
    let mark = [list[at], list[at + 1]];
    KINDS
        .iter()
        .copied()
        .find(|kind| mark == crate::mark_of(*kind))
}

// The plane of the record whose mark stands at a place. One without a plane byte has none that could be wrong.
fn plane_for(list: &[u8], at: usize, kind: Kind) -> Option<Plane>
    requires { at + head_length kind ≤ length list.now }
    ensures { result ≡ plane_for (has_plane kind) list.now (at + 2) }
{
    if crate::has_plane(kind) {
        Plane::try_from(list[at + 2]).ok()
    } else {
        Some(Plane::G17)
    }
}

// What stands at a place. The place may be any number, so the bytes from there on are counted, and no sum is made before
// the record is known to be there.
pub fn read(list: &[u8], at: usize) -> Listed
    ensures { result ≡ read_at list.now at }
{
    if list.len() < at {
        return Listed::Faulty(Fault::CutShort, at);
    }
    let left = list.len() - at;
    if left == 0 {
        return Listed::End;
    }
    if left < 2 {
        return Listed::Faulty(Fault::CutShort, at);
    }
    let Some(kind) = kind_at(list, at) else {
        return Listed::Faulty(Fault::UnknownMark, at);
    };
    let length = crate::kind_length(kind);
    if left < length {
        return Listed::Faulty(Fault::CutShort, at);
    }
    let Some(plane) = plane_for(list, at, kind) else {
        return Listed::Faulty(Fault::OtherPlane, at);
    };
    Listed::Next(
        record_at(list, at + crate::head_length(kind), kind, plane),
        at + length,
    )
}

// What all records of a kind share: the mark, and how many bytes they take.
ghost use Rattle.std.specs.Prelude.{◌≤◌, ◌≡◌};
ghost use Rattle.records.specs.Layout.{kind_of, mark_of, has_plane, numbers_in, head_length, kind_length};

use crate::{Kind, Record};

pub fn kind_of(r: Record) -> Kind
    ensures { result ≡ kind_of r }
{
    match r {
        Record::RP(_) => Kind::RP,
        Record::LN(_, _) => Kind::LN,
        Record::AR(_) => Kind::AR,
        Record::AL(_) => Kind::AL,
        Record::DW(_) => Kind::DW,
        Record::SP(_) => Kind::SP,
        Record::SO => Kind::SO,
        Record::PA => Kind::PA,
        Record::EN => Kind::EN,
    }
}

pub fn mark_of(kind: Kind) -> [u8; 2]
    ensures { result ≡ mark_of kind }
{
    match kind {
        Kind::RP => [b'R', b'P'],
        Kind::LN => [b'L', b'N'],
        Kind::AR => [b'A', b'R'],
        Kind::AL => [b'A', b'L'],
        Kind::DW => [b'D', b'W'],
        Kind::SP => [b'S', b'P'],
        Kind::SO => [b'S', b'O'],
        Kind::PA => [b'P', b'A'],
        Kind::EN => [b'E', b'N'],
    }
}

// Only arcs have a plane byte after their mark.
pub fn has_plane(kind: Kind) -> bool
    ensures { result ≡ has_plane kind }
{
    matches!(kind, Kind::AR | Kind::AL)
}

// How many numbers a record has. The bound spares callers a look into the table when they add and multiply.
pub fn numbers_in(kind: Kind) -> usize
    ensures { (result ≡ numbers_in kind) × (result ≤ 6) }
{
    match kind {
        Kind::RP => 3,
        Kind::LN => 4,
        Kind::AR => 6,
        Kind::AL => 6,
        Kind::DW => 1,
        Kind::SP => 1,
        Kind::SO => 0,
        Kind::PA => 0,
        Kind::EN => 0,
    }
}

// The bytes before the numbers: the mark, and for an arc the plane byte.
pub fn head_length(kind: Kind) -> usize
    ensures { (result ≡ head_length kind) × (result ≤ 3) }
{
    if has_plane(kind) { 3 } else { 2 }
}

// The bytes of a whole record.
pub fn kind_length(kind: Kind) -> usize
    ensures { result ≡ kind_length kind }
{
    head_length(kind) + 4 * numbers_in(kind)
}

// The bytes that a record takes in the list.
pub fn room(r: Record) -> usize
    ensures { result ≡ kind_length (kind_of r) }
{
    kind_length(kind_of(r))
}

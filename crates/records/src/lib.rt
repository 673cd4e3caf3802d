// The record list that the motor card and the viewer read.
#![tactic(auto)]

mod displacing;
mod kinds;
mod leading;
mod loading;
mod printing;
mod storing;

use codes::Plane;
pub use displacing::displaced_arc;
pub use kinds::{has_plane, head_length, kind_length, kind_of, mark_of, room};
pub use leading::path_end;
use lengths::{Len, Point};
pub use loading::read;
pub use storing::{put, put_cut, put_mark, put_rapid, put_single};

// What AR and AL hold: the plane, the end, the centre by the plane's first and second axis, and the feed.
#[derive(Clone, Copy)]
pub struct Arc {
    pub plane: Plane,
    pub end: Point,
    pub first: Len,
    pub second: Len,
    pub feed: Len,
}

// The records, by their marks.
#[derive(Clone, Copy)]
pub enum Record {
    RP(Point),
    LN(Point, Len),
    AR(Arc),
    AL(Arc),
    DW(Len),
    SP(Len),
    SO,
    PA,
    EN,
}

// A record's mark without what the record holds.
#[derive(Clone, Copy)]
pub enum Kind {
    RP,
    LN,
    AR,
    AL,
    DW,
    SP,
    SO,
    PA,
    EN,
}

// What a reader refuses, in this order.
#[derive(Clone, Copy)]
pub enum Fault {
    UnknownMark,
    CutShort,
    OtherPlane,
}

// What reading at a place finds: a record and the place after it, the list's end, or a fault with its mark's place. These are
// three outcomes, one more than an Option or a Result has.
#[derive(Clone, Copy)]
pub enum Listed {
    Next(Record, usize),
    End,
    Faulty(Fault, usize),
}

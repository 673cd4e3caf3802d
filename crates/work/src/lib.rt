// What a block makes by its motion: so many passes of the same few records, tested as a whole and then written.
#![tactic(auto)]

mod planning;
mod testing;
mod writing;

use codes::Distance;
use cycles::Hole;
use lengths::{Len, Point};
pub use planning::{centre_given, cycle_done, end_stands, work_of};
use records::Record;
pub use testing::{check_work, with_brief, work_fits};
use words::Values;
pub use writing::{put_brief, put_work};

// The records of one pass: one that is known, or those of a hole.
// No `Option` or `Result`: these are two kinds of work, and neither is a lack or a failure.
#[derive(Clone, Copy)]
pub enum Pass {
    One(Record),
    Drill(Hole),
}

// What a block makes by its motion, and whether its geometry holds. Records are in the frame of the common offset.
// No `Option`: the rules tell both of a block too, its records and whether they hold (`Moves` of `blocks`).
#[derive(Clone, Copy)]
pub struct Work {
    pub pass: Pass,
    pub passes: u64,
    pub sound: bool,
}

// A record before the motion or after it, of the spindle or of the M code. A block has one of each at most.
#[derive(Clone, Copy)]
pub enum Brief {
    Speed(Len),
    SpindleOff,
    Pause,
    End,
}

// What the words of a block lead by: how they are counted, the origin, and their values.
#[derive(Clone, Copy)]
pub struct Aim {
    pub distance: Distance,
    pub origin: Point,
    pub values: Values,
}

// What records come to: the point where they end, their bytes in the list, and how many they are.
// That it is `Little` cannot be an invariant: the definition `grown` (specs/Work.antt) makes an extent of any records.
#[derive(Clone, Copy)]
pub struct Extent {
    pub end: Point,
    pub room: usize,
    pub count: usize,
}

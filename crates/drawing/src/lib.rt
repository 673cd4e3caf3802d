// A record list drawn as SVG text, in units: the path seen from above and from the side, under a setup.
#![tactic(auto)]

mod layers;
mod picture;

use lengths::Point;
pub use picture::draw;

// The travel and the start in machine units, and the gap around and between the views.
// Its bounds (`Fair`) are no invariant of the type: the definition `sheet_of` in specs/ makes a sheet of any setup.
#[derive(Clone, Copy)]
pub struct Sheet {
    pub low: Point,
    pub high: Point,
    pub start: Point,
    pub gap: u64,
}

// Why a list is not drawn: no room for the picture and one byte more; the place of a record that cannot be read; a setup that
// breaks a limit.
#[derive(Clone, Copy, PartialEq, Eq)]
pub enum Undrawn {
    NoRoom,
    Faulty(usize),
    BadSetup,
}

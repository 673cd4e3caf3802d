// Shapes as SVG text, in units: numbers in the blanks of a text, and lines and arcs as they are seen from above or from the side.
#![tactic(auto)]

mod arc_text;
mod forms;
mod quarters;
mod views;

pub use arc_text::put_arc;
pub use forms::{put_form, put_text};
use lengths::{Flat, Len, Point};
use records::Arc;
pub use views::{put_line, seen};

// An arc as it is seen: from where, the point at which it begins, whether it turns left, the directions from its centre to its
// start and to its end, and its radius.
// What they leave room for (`Ready`) is no invariant of the type: the definition `seen_arc` in specs/ makes one of any numbers.
#[derive(Clone, Copy)]
pub struct SeenArc {
    pub view: View,
    pub from: Point,
    pub arc: Arc,
    pub turn: bool,
    pub start: Flat,
    pub end: Flat,
    pub radius: Len,
}

// From where a path is seen: X to the right, and Y up from above, Z up from the side.
#[derive(Clone, Copy)]
pub enum View {
    Above,
    Side,
}

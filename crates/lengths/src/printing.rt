// Lengths as programs print them: the count of units, with a minus sign below 0, and of a point three of them.
use crate::{Len, Point};
use std::fmt;

impl fmt::Display for Len {
    fn fmt<W: fmt::Write>(&self, f: &mut fmt::Formatter<W>) -> fmt::Result {
        write!(f, "{}", self.v)
    }
}

impl fmt::Display for Point {
    fn fmt<W: fmt::Write>(&self, f: &mut fmt::Formatter<W>) -> fmt::Result {
        write!(f, "{} {} {}", self.x, self.y, self.z)
    }
}

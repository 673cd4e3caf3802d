// Which limit is broken, in plain words; what it is a limit of; and of which axis.
use crate::{Axis, Fault, Offset};
use std::fmt;

impl fmt::Display for Axis {
    fn fmt<W: fmt::Write>(&self, f: &mut fmt::Formatter<W>) -> fmt::Result {
        f.write_str(match self {
            Axis::X => "X",
            Axis::Y => "Y",
            Axis::Z => "Z",
        })
    }
}

// The workpiece origins are G54 to G59, in the order of the table.
impl fmt::Display for Offset {
    fn fmt<W: fmt::Write>(&self, f: &mut fmt::Formatter<W>) -> fmt::Result {
        match self {
            Offset::Common => write!(f, "the common offset"),
            Offset::Origin(place) => write!(f, "G{}", 54 + (*place).min(5)),
        }
    }
}

impl fmt::Display for Fault {
    fn fmt<W: fmt::Write>(&self, f: &mut fmt::Formatter<W>) -> fmt::Result {
        match self {
            Fault::TravelOrder(axis) => {
                write!(f, "the travel's {axis}: the low end is above the high end")
            }
            Fault::TravelFar(axis) => {
                write!(
                    f,
                    "the travel's {axis}: it reaches more than 100000000 from 0"
                )
            }
            Fault::StartOutside(axis) => {
                write!(f, "the start's {axis}: it lies outside the travel")
            }
            Fault::OffsetFar(offset, axis) => {
                write!(f, "{offset}'s {axis}: it is more than 1000000000 from 0")
            }
            Fault::Feed => write!(f, "the feed: it is not from 1 to 1000000000"),
            Fault::Speeds => {
                write!(
                    f,
                    "the lowest and the highest speed: they are not from 1 to 99999, in this order"
                )
            }
            Fault::Speed => write!(f, "the speed: it is not between the lowest and the highest"),
            Fault::Switch => write!(f, "the switch: it is neither 0 nor 1"),
        }
    }
}

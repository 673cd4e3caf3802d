// Codes as programs print them, by their G and two figures.
use crate::{Cycle, Distance, Motion, Plane, Return, Unit};
use std::fmt;

impl fmt::Display for Cycle {
    fn fmt<W: fmt::Write>(&self, f: &mut fmt::Formatter<W>) -> fmt::Result {
        write!(f, "G{}", crate::cycle_number(*self))
    }
}

impl fmt::Display for Motion {
    fn fmt<W: fmt::Write>(&self, f: &mut fmt::Formatter<W>) -> fmt::Result {
        match self {
            Motion::Off => write!(f, "G80"),
            Motion::G00 => write!(f, "G00"),
            Motion::G01 => write!(f, "G01"),
            Motion::G02 => write!(f, "G02"),
            Motion::G03 => write!(f, "G03"),
            Motion::Drilling(cycle) => write!(f, "{cycle}"),
        }
    }
}

impl fmt::Display for Plane {
    fn fmt<W: fmt::Write>(&self, f: &mut fmt::Formatter<W>) -> fmt::Result {
        f.write_str(match self {
            Plane::G17 => "G17",
            Plane::G18 => "G18",
            Plane::G19 => "G19",
        })
    }
}

impl fmt::Display for Unit {
    fn fmt<W: fmt::Write>(&self, f: &mut fmt::Formatter<W>) -> fmt::Result {
        f.write_str(match self {
            Unit::Inch => "G20",
            Unit::Millimetre => "G21",
        })
    }
}

impl fmt::Display for Distance {
    fn fmt<W: fmt::Write>(&self, f: &mut fmt::Formatter<W>) -> fmt::Result {
        f.write_str(match self {
            Distance::Absolute => "G90",
            Distance::Incremental => "G91",
        })
    }
}

impl fmt::Display for Return {
    fn fmt<W: fmt::Write>(&self, f: &mut fmt::Formatter<W>) -> fmt::Result {
        f.write_str(match self {
            Return::ToInitial => "G98",
            Return::ToR => "G99",
        })
    }
}

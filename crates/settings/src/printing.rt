// The code that is on in each of the groups A to F, as programs print them.
use crate::Modes;
use std::fmt;

impl fmt::Display for Modes {
    fn fmt<W: fmt::Write>(&self, f: &mut fmt::Formatter<W>) -> fmt::Result {
        // There are six origins, G54 to G59.
        let origin = 54 + self.origin.min(5);
        write!(
            f,
            "{} {} {} {} G{origin} {}",
            self.motion, self.plane, self.unit, self.distance, self.back
        )
    }
}

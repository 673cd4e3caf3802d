// Records as programs print them: the mark, for an arc the plane's number, then the numbers in layout order, with one space
// between.
use crate::{Arc, Fault, Record};
use std::fmt;

impl fmt::Display for Record {
    fn fmt<W: fmt::Write>(&self, f: &mut fmt::Formatter<W>) -> fmt::Result {
        match self {
            Record::RP(p) => write!(f, "RP {p}"),
            Record::LN(p, feed) => write!(f, "LN {p} {feed}"),
            Record::AR(a) => write!(f, "AR {a}"),
            Record::AL(a) => write!(f, "AL {a}"),
            Record::DW(ms) => write!(f, "DW {ms}"),
            Record::SP(speed) => write!(f, "SP {speed}"),
            Record::SO => write!(f, "SO"),
            Record::PA => write!(f, "PA"),
            Record::EN => write!(f, "EN"),
        }
    }
}

// What an arc's record holds after its mark.
impl fmt::Display for Arc {
    fn fmt<W: fmt::Write>(&self, f: &mut fmt::Formatter<W>) -> fmt::Result {
        let plane = u8::from(self.plane);
        write!(
            f,
            "{plane} {} {} {} {}",
            self.end, self.first, self.second, self.feed
        )
    }
}

// Why no record can be read.
impl fmt::Display for Fault {
    fn fmt<W: fmt::Write>(&self, f: &mut fmt::Formatter<W>) -> fmt::Result {
        f.write_str(match self {
            Fault::UnknownMark => "bad mark",
            Fault::CutShort => "bad short",
            Fault::OtherPlane => "bad plane",
        })
    }
}

// What a refusal means, in plain words; where it stands; and a run's answer as document 01's listing gives it.
use crate::{Answer, Place, Refusal};
use std::fmt;

impl fmt::Display for Refusal {
    fn fmt<W: fmt::Write>(&self, f: &mut fmt::Formatter<W>) -> fmt::Result {
        f.write_str(match self {
            Refusal::BadParameter => {
                "bad parameter: a value, its form, a radius, the order of levels or a program number"
            }
            Refusal::AddressUndefined => {
                "address undefined: the block's code does not use this word"
            }
            Refusal::ParameterUndefined => {
                "parameter undefined: a P, or an arc's centre or radius, is missing"
            }
            Refusal::CannotExecute => "code cannot execute: it is unknown or may not stand here",
            Refusal::NumberNotFound => "program number not found",
            Refusal::NestOver => "subprogram nest over: a call from the fourth level",
            Refusal::TableOver => "subprogram table over: this is the eleventh",
            Refusal::DuplicateNumber => "duplicate subprogram number",
            Refusal::LeavesTravel => "the path leaves the travel",
            Refusal::NoRoom => "the block's records do not all fit the list",
            Refusal::FirstBlock => "the first block is not % alone",
            Refusal::BadSetup => "the setup breaks a limit; iswenaid check tells which",
            Refusal::DataTooLong => "the data is too long: at most 65535 bytes",
            Refusal::NoEnd => "the program has no end",
            Refusal::Unreadable => "unreadable byte or number",
            Refusal::CentreTooFar => "the arc's centre does not fit four bytes",
        })
    }
}

// The block's number, then the byte's.
impl fmt::Display for Place {
    fn fmt<W: fmt::Write>(&self, f: &mut fmt::Formatter<W>) -> fmt::Result {
        write!(f, "{} {}", self.block, self.byte)
    }
}

// A refusal by its number and its place, another answer by the count of its records.
impl fmt::Display for Answer {
    fn fmt<W: fmt::Write>(&self, f: &mut fmt::Formatter<W>) -> fmt::Result {
        match self {
            Answer::Done(count) => write!(f, "done {count}"),
            Answer::Unfinished(count) => write!(f, "unfinished {count}"),
            Answer::Refused(refusal, place, _) => {
                write!(f, "refused {} {place}", crate::number(*refusal))
            }
        }
    }
}

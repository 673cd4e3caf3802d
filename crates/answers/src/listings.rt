// Prints what a run gives, for all programs: each record on a line, and the answer on a line. After a write that fails nothing
// more is tried.
use records::Listed;
use refusals::Answer;
use std::io::{Error, Print};

// Why a list is not shown to its end: no record can be read at a place, or a write failed.
#[derive(Clone, Copy)]
pub enum Unshown {
    Faulty(usize),
    Unwritten(Error),
}

impl From<Error> for Unshown {
    fn from(why: Error) -> Unshown {
        Unshown::Unwritten(why)
    }
}

// A run's listing: the records that its answer counts in the list, then the answer.
pub fn show_run(rt: &impl Print, list: &[u8], answer: Answer) -> std::io::Result<()> {
    show_records(rt, list, refusals::count_of(answer))?;
    println!(rt; "{answer}")
}

// The first records of a list, as many as it is told. What stands after them is not read.
fn show_records(rt: &impl Print, list: &[u8], count: usize) -> std::io::Result<()> {
    let mut at: usize = 0;
    for _ in 0..count {
        let found = records::read(list, at);
        let Listed::Next(r, next) = found else {
            return Ok(());
        };
        println!(rt; "{r}")?;
        at = next;
    }
    Ok(())
}

// The whole list. The last line is `end`, or what the reader refuses and the place of its mark.
pub fn show_list(rt: &impl Print, list: &[u8]) -> Result<(), Unshown> {
    let mut at: usize = 0;
    loop {
        let found = records::read(list, at);
        match found {
            Listed::Next(r, next) => {
                println!(rt; "{r}")?;
                at = next;
            }
            Listed::End => {
                println!(rt; "end")?;
                return Ok(());
            }
            Listed::Faulty(fault, place) => {
                println!(rt; "{fault} {place}")?;
                return Err(Unshown::Faulty(place));
            }
        }
    }
}

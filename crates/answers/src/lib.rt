// A run's answer: printed, with what a refusal means and where it stands. After a write that fails nothing more is tried.
#![tactic(auto)]

mod listings;
mod places;
mod standings;

pub use listings::{Unshown, show_list, show_run};
use places::show_place;
use refusals::{Answer, Place};
use settings::State;
use standings::show_state;
use std::io::{Print, Result};

pub fn show_answer(rt: &impl Print, data: &[u8], answer: Answer) -> Result<()> {
    match answer {
        Answer::Done(_) => println!(rt; "{answer}"),
        Answer::Unfinished(count) => println!(rt; "not finished {count}"),
        Answer::Refused(refusal, place, _) => {
            println!(rt; "{answer}\n{refusal}")?;
            // Where the data is not to blame the block is 0, and no place is shown.
            if place.block == 0 {
                return Ok(());
            }
            show_place(rt, data, place.byte)
        }
    }
}

// Where a run stands that is not finished. One that is over needs no more than its answer.
pub fn show_standing(rt: &impl Print, answer: Answer, state: State, next: Place) -> Result<()> {
    match answer {
        Answer::Unfinished(_) => show_state(rt, state, next),
        Answer::Done(_) | Answer::Refused(_, _, _) => Ok(()),
    }
}

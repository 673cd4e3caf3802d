// Running a data set under a setup.
#![tactic(auto)]

mod reporting;
mod walk;

ghost use Rattle.std.specs.Prelude.{◌≡◌};
ghost use Rattle.terms.specs.Common.{true, length};
ghost use Rattle.lines.specs.Blocks.{blocks_of};
ghost use Rattle.setup.specs.{Limits.valid_setup, Frame.offset};
ghost use Rattle.records.specs.Reading.{read_at};
ghost use Rattle.programs.specs.{Openings.table, Found.subs_of};
ghost use Rattle.runs.specs.{declared.Budget.TheVariants.Whole, declared.Budget.TheVariants.First, Run.run_table, Run.outcome};
ghost use Rattle.interpreter.specs.{Owing.Owes, Serving.Opened, Serving.Gives};

use programs::{Program, Programs};
use records::Listed;
use refusals::{Place, Refusal};
use runs::{Budget, Progress, Report, Standing};
use setup::{Bed, Setup};

// What stays as it is while a data set runs.
#[derive(Clone, Copy)]
pub struct Task {
    pub bed: Bed,
    pub programs: Programs,
    pub skips: bool,
}

// How the walk through a program ends: at the program's end, by a return, by the budget's end, or by a refusal.
// No `Result`: a walk has four outcomes, of which a refusal is one.
#[derive(Clone, Copy)]
pub enum How {
    Ended,
    Returned,
    Unfinished,
    Refused(Refusal),
}

// The ending of a walk: how, at which place (of the block that is not executed any more, or that which a refusal names), and the
// progress that it leaves.
#[derive(Clone, Copy)]
pub struct Ending {
    pub how: How,
    pub place: Place,
    pub progress: Progress,
}

// What a block does that does not lead to the next one: it calls the subprogram of a number, or the walk is over.
// No `Result`: a call is no failure, and of the four ends of a walk one is.
#[derive(Clone, Copy)]
pub enum Turn {
    Calls(u64),
    Over(How),
}

// How far a walk comes that follows no call: what its last block does, the place of that block, the byte where the walk goes on after a
// call or that a refusal names, and the progress before that block and after it.
#[derive(Clone, Copy)]
pub struct Leg {
    pub turn: Turn,
    pub place: Place,
    pub byte: usize,
    pub before: Progress,
    pub after: Progress,
}

// Runs the main program, all four levels left.
fn run_main(
    setup: Setup,
    bytes: &[u8],
    list: &mut [u8],
    programs: Programs,
    budget: Budget,
) -> Report
    requires setup_value { valid_setup setup ≡ true }
    requires opened { Opened bytes.now programs }
    ensures { Gives (offset setup) (run_table setup bytes.now (blocks_of bytes.now) (length list.old) budget (table programs.main (subs_of programs))) list.old list.new result }
{
    let task = Task {
        bed: setup::bed_of(setup),
        programs,
        skips: setup::skips(setup),
    };
    let first = Progress {
        state: runs::first_state(setup),
        next: 0,
        count: 0,
        budget,
    };
    let ending = walk::run_program(bytes, list, task, 4, programs.main, first);
    let how = ending.how;
    let state = settings::state_moved(setup::point_of(setup.exofs), ending.progress.state);
    let next = reporting::next_by(how, ending.place);
    Report {
        answer: reporting::answer_by(how, ending.place, ending.progress.count),
        standing: Standing { state, next },
        end: ending.progress.next,
    }
}

// Document 01's order: 13, 12, 11, the openings, and then block by block.
fn run_within(setup: Setup, bytes: &[u8], list: &mut [u8], budget: Budget) -> Report
    ensures { Gives (offset setup) (outcome setup bytes.now (length list.old) budget) list.old list.new result }
{
    let nowhere = Place { block: 0, byte: 0 };
    if 65_535 < bytes.len() {
        return runs::refused(setup, Refusal::DataTooLong, nowhere);
    }
    if !setup::is_valid(setup) {
        return runs::refused(setup, Refusal::BadSetup, nowhere);
    }
    if !lines::is_percent(bytes, 0) {
        return runs::refused(setup, Refusal::FirstBlock, Place { block: 1, byte: 0 });
    }
    match programs::find_programs(bytes) {
        Err(refused) => runs::refused(setup, refused.refusal, refused.place),
        Ok(found) => run_main(setup, bytes, list, found, budget),
    }
}

// Runs the whole data set under a setup. The list's whole length is the room for records.
pub fn run(setup: Setup, bytes: &[u8], list: &mut [u8]) -> Report
    ensures { Owes setup bytes.now Whole list.old list.new result }
{
    run_within(setup, bytes, list, Budget::Whole)
}

// Runs only the first n executed blocks.
pub fn run_blocks(setup: Setup, bytes: &[u8], list: &mut [u8], n: u64) -> Report
    ensures { Owes setup bytes.now (First n) list.old list.new result }
{
    run_within(setup, bytes, list, Budget::First(n))
}

// Reads the record at a place of a list. Any bytes and any place are answered.
pub fn read_record(list: &[u8], at: usize) -> Listed
    ensures { result ≡ read_at list.now at }
{
    records::read(list, at)
}

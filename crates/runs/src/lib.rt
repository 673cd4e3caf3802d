// The run of a data set, as rules; its budget, its progress from block to block, and what it tells before any block.
#![tactic(auto)]

ghost use Rattle.std.specs.Prelude.{◌≡◌, ◌+◌, ◌<◌, ◌^◌};
ghost use Rattle.terms.specs.Common.{true, false};
ghost use Rattle.setup.specs.{Limits.valid_setup, Frame.offset};
ghost use Rattle.runs.specs.{Walk.is_spent, Walk.one_less, Walk.just, Walk.refused_at, Run.first_of, Serving.progress_by, Serving.report_by};

use blocks::Done;
use refusals::{Answer, Place, Refusal};
use settings::State;
use setup::Setup;

// How much is run: the whole, or the first n executed blocks. No Option: the theorems of a run say by these two names what is run.
#[derive(Clone, Copy)]
pub enum Budget {
    Whole,
    First(u64),
}

pub fn is_spent(b: Budget) -> bool
    ensures { result ≡ is_spent b }
{
    matches!(b, Budget::First(0))
}

// Every block reached takes one.
pub fn one_less(b: Budget) -> Budget
    requires { is_spent b ≡ false }
    ensures { result ≡ one_less b }
{
    match b {
        Budget::Whole => Budget::Whole,
        Budget::First(n) => Budget::First(n - 1),
    }
}

// Where a run stands: its settings, the point in machine units, and, while it is not finished, the place of the next block.
#[derive(Clone, Copy)]
pub struct Standing {
    pub state: State,
    pub next: Place,
}

// What a run tells its caller: its answer, where it stands, and how many bytes of the list its records take.
#[derive(Clone, Copy)]
pub struct Report {
    pub answer: Answer,
    pub standing: Standing,
    pub end: usize,
}

// What changes from block to block: the settings, the place in the list after the records, their count, and the blocks that
// may still be executed.
#[derive(Clone, Copy)]
pub struct Progress {
    pub state: State,
    pub next: usize,
    pub count: usize,
    pub budget: Budget,
}

// The progress after an accepted block.
pub fn progress_after(p: Progress, done: Done) -> Progress
    requires budget_value { is_spent p.budget ≡ false }
    requires count_bound { p.count + done.count < 2 ^ 64 }
    ensures { result ≡ progress_by p done }
{
    let state = done.state;
    let budget = p.budget;
    Progress {
        state,
        next: done.next,
        count: p.count + done.count,
        budget: one_less(budget),
    }
}

// The settings that a run starts with.
pub fn first_state(setup: Setup) -> State
    requires { valid_setup setup ≡ true }
    ensures { result ≡ first_of setup }
{
    let start = setup::start_of(setup);
    settings::first_state(start, setup::feed_of(setup), setup::speed_of(setup))
}

// A refusal before any block: the run stands where it would have started, by the setup's own numbers, with no sum of them, since those
// of a refused setup may be any.
pub fn refused(setup: Setup, refusal: Refusal, place: Place) -> Report
    ensures { result ≡ report_by (offset setup) (just (refused_at refusal place) (first_of setup)) }
{
    let start = setup::point_of(setup.start);
    let state = settings::first_state(start, setup::feed_of(setup), setup::speed_of(setup));
    let next = Place { block: 0, byte: 0 };
    Report {
        answer: Answer::Refused(refusal, place, 0),
        standing: Standing { state, next },
        end: 0,
    }
}

// What one block does.
#![tactic(auto)]

use codes::Misc;
use letters::BlockCode;
use settings::{Modes, State};
use words::Values;

// What the words of a block say: the modes that hold in it, its code, whether it names the code that is on of group A, its
// M code and its values.
#[derive(Clone, Copy)]
pub struct Said {
    pub modes: Modes,
    pub code: BlockCode,
    pub misc: Misc,
    pub named: bool,
    pub values: Values,
}

// Where a run goes after a block: on, into a subprogram by its number, back from one, or to its end.
#[derive(Clone, Copy)]
pub enum Control {
    On,
    Call(u64),
    Back,
    Stop,
}

// An accepted block: the settings after it, where the run goes, the place in the list after its records and their count, and
// the place of the next block in the data.
#[derive(Clone, Copy)]
pub struct Done {
    pub state: State,
    pub control: Control,
    pub next: usize,
    pub count: usize,
    pub after: usize,
}

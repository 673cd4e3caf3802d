// One block, from its words to its verdict and its records.
#![tactic(auto)]

mod block_reading;
mod checking;
mod effects;
mod order;

ghost use Rattle.std.specs.Prelude.{◌-◌, ◌≤◌, ◌+◌};
ghost use Rattle.terms.specs.Common.{ℕ, List, length, drop};
ghost use Rattle.lines.specs.Blocks.{text_from, length_from};
ghost use Rattle.words.specs.declared.Word.{Word};
ghost use Rattle.setup.specs.Fair.{Fair};
ghost use Rattle.blocks.specs.{Machine.machine_of, Reach.Steady, Reach.Reachable, Exec.exec, Calling.freely, Doing.Does};
ghost use Rattle.execution.specs.Steps.{judged_from};

use blocks::{Control, Done, Said};
use refusals::{Blame, Refusal};
use settings::State;
use setup::Bed;
use work::{Aim, Brief, Work};

// What a block stands on: the bed, and the levels left for calls.
#[derive(Clone, Copy)]
pub struct Ground {
    pub bed: Bed,
    pub left: usize,
}

// Where a block stands in the data: its first byte, and the byte where its words begin.
#[derive(Clone, Copy)]
pub struct Spot {
    pub start: usize,
    pub from: usize,
}

// What is read of a block's words: what they say, and where the block's text ends.
#[derive(Clone, Copy)]
pub struct BlockRead {
    pub said: Said,
    pub end: usize,
}

// A block whose motion is planned: where the run goes, the settings in which it moves, what its words lead by, and its records: that of
// the spindle, those of the motion, and that of the M code.
#[derive(Clone, Copy)]
pub struct Planned {
    pub control: Control,
    pub works: State,
    pub aim: Aim,
    pub first: Option<Brief>,
    pub work: Work,
    pub last: Option<Brief>,
}

// What a block says is tested in the order of refusals: 3, 4 for a cycle, and then its path. 5 and 6 are tested where its call is
// followed: a block that calls is refused by nothing after them.
fn check_block(
    list: &mut [u8],
    at: usize,
    bed: Bed,
    start: usize,
    after: usize,
    s: State,
    b: Said,
) -> Result<Done, Blame>
    requires at_in_bounds { at ≤ length list.old }
    requires steady { Steady bed s b }
    ensures { (left : ℕ) (ws : List Word) → Does bed.offset (judged_from 3 (machine_of bed) (freely left) (length list.old - at) s start ws b) list.old at after list.new result }
{
    let code = b.code;
    let misc = b.misc;
    if order::lacks_parameter(code, b.values) {
        return Err(Blame {
            refusal: Refusal::ParameterUndefined,
            byte: start,
        });
    }
    let works = effects::working(s, b);
    if order::cannot_drill(b, works.turning) {
        return Err(Blame {
            refusal: Refusal::CannotExecute,
            byte: start,
        });
    }
    let planned = checking::plan_block(bed, s, b, works);
    checking::write_block(list, at, bed, start, after, misc, planned)
}

// Executes the block at a place of the data. Its records go to the place `at` of the list. A block that is refused leaves the list as it
// was.
pub fn exec(
    s: &[u8],
    list: &mut [u8],
    at: usize,
    footing: Ground,
    spot: Spot,
    state: State,
) -> Result<Done, Blame>
    requires from_in_bounds { spot.from ≤ length s.now }
    requires at_in_bounds { at ≤ length list.old }
    requires fair { Fair footing.bed }
    requires reachable { Reachable footing.bed state }
    ensures { Does footing.bed.offset (exec (machine_of footing.bed) (freely footing.left) (length list.old - at) state spot.start spot.from (text_from (drop spot.from s.now))) list.old at (spot.from + length_from (drop spot.from s.now)) list.new result }
{
    let read = block_reading::read_block(s, spot.from, footing.left, footing.bed, state)?;
    let after = lines::next_block(s, read.end);
    check_block(list, at, footing.bed, spot.start, after, state, read.said)
}

// The walk through the blocks of a program. A call walks the subprogram by the same function, with one level less.
ghost use Rattle.std.specs.Prelude.{◌≡◌, ◌+◌, ◌-◌, ◌≤◌, ◌<◌};
ghost use Rattle.terms.specs.Common.{ℕ, length, drop};
ghost use Rattle.lines.specs.Blocks.{length_from, block_from};
ghost use Rattle.setup.specs.Fair.{Fair};
ghost use Rattle.programs.specs.{declared.table.Programs.Programs, Places.Begins, Places.Placed};
ghost use Rattle.blocks.specs.{Reach.Reachable, Doing.Does};
ghost use Rattle.interpreter.specs.declared.Turn.TheVariants.{Over};
ghost use Rattle.interpreter.specs.Progressing.{task_on, walk_from, program_ends, verdict_at, Goes, Ran, Sound, Fits};

use crate::{Ending, How, Leg, Task, Turn};
use blocks::{Control, Done};
use execution::{Ground, Spot};
use programs::{Program, Programs};
use refusals::{Blame, Place, Refusal};
use runs::Progress;
use settings::State;

// Whether a program has no more blocks at a place.
fn program_ends(s: &[u8], at: usize) -> bool
    requires { at ≤ length s.now }
    ensures { result ≡ program_ends (drop at s.now) }
{
    if s.len() <= at {
        return true;
    }
    if lines::begins_with(s, at, b'O') {
        return true;
    }
    lines::is_percent(s, at)
}

// The block at a place: skipped unread, which is accepted with nothing done, or executed, a slash before its words left out.
fn do_block(
    s: &[u8],
    list: &mut [u8],
    footing: Ground,
    skips: bool,
    at: usize,
    next: usize,
    state: State,
) -> Result<Done, Blame>
    requires at_in_bounds { at < length s.now }
    requires next_in_bounds { next ≤ length list.old }
    requires fair { Fair footing.bed }
    requires reachable { Reachable footing.bed state }
    ensures { (n : ℕ) → Does footing.bed.offset
        (verdict_at footing skips (block_from n at (drop at s.now)) (length list.old - next) state)
        list.old next (at + length_from (drop at s.now)) list.new result }
{
    let slashed = lines::begins_with(s, at, b'/');
    if slashed & skips {
        return Ok(Done {
            state,
            control: Control::On,
            next,
            count: 0,
            after: lines::next_block(s, at),
        });
    }
    let from = if slashed { at + 1 } else { at };
    execution::exec(s, list, next, footing, Spot { start: at, from }, state)
}

// The walk is over at a place, with no more done.
fn over(how: How, place: Place, byte: usize, p: Progress) -> Leg
    ensures { result ≡ record { turn = Over how; place = place; byte = byte; before = p; after = p } }
{
    Leg {
        turn: Turn::Over(how),
        place,
        byte,
        before: p,
        after: p,
    }
}

// Walks a program's blocks from a place on, up to one that does not lead to the next. It knows no table of programs and does not call
// itself, so that the compiler works on the loop alone.
// Blocks by a loop, apart from the calls, is a form that the project wants (docs/DECISIONS.md, "Forms for each place").
fn run_leg(
    s: &[u8],
    list: &mut [u8],
    footing: Ground,
    skips: bool,
    start: Place,
    mut p: Progress,
) -> Leg
    requires fair { Fair footing.bed }
    requires begins { Begins s.now start.block start.byte }
    requires fits { Fits footing.bed (length list.old) p }
    ensures { (programs : Programs) → Goes result.turn s.now (task_on footing skips programs) footing.left start.block start.byte
        p list.old list.new result }
{
    let mut block = start.block;
    let mut at = start.byte;
    loop {
        let place = Place { block, byte: at };
        let budget = p.budget;
        if runs::is_spent(budget) {
            return over(How::Unfinished, place, at, p);
        }
        if program_ends(s, at) {
            return over(How::Refused(Refusal::NoEnd), place, at, p);
        }
        match do_block(s, list, footing, skips, at, p.next, p.state) {
            Err(blame) => return over(How::Refused(blame.refusal), place, blame.byte, p),
            Ok(done) => {
                let control = done.control;
                let after = runs::progress_after(p, done);
                let turn = match control {
                    Control::On => {
                        p = after;
                        at = done.after;
                        block += 1;
                        continue;
                    }
                    Control::Call(number) => Turn::Calls(number),
                    Control::Back => Turn::Over(How::Returned),
                    Control::Stop => Turn::Over(How::Ended),
                };
                return Leg {
                    turn,
                    place,
                    byte: done.after,
                    before: p,
                    after,
                };
            }
        }
    }
}

// Walks a program's blocks from its first one on, with so many levels left for calls: from call to call, each followed by this
// function itself.
pub fn run_program(
    s: &[u8],
    list: &mut [u8],
    task: Task,
    left: usize,
    program: Program,
    mut p: Progress,
) -> Ending
    requires sound { Sound s.now task }
    requires placed { Placed s.now program }
    requires fits { Fits task.bed (length list.old) p }
    ensures { Ran task.bed
        (walk_from s.now (length list.old) task left program.block program.byte p)
        p list.old list.new result }
{
    let bed = task.bed;
    let footing = Ground { bed, left };
    let mut block = program.block;
    let mut at = program.byte;
    loop {
        let leg = run_leg(s, list, footing, task.skips, Place { block, byte: at }, p);
        let turn = leg.turn;
        let number = match turn {
            Turn::Over(how) => {
                let progress = leg.after;
                return Ending {
                    how,
                    place: Place {
                        block: leg.place.block,
                        byte: leg.byte,
                    },
                    progress,
                };
            }
            Turn::Calls(number) => number,
        };
        match programs::find_callee(task.programs, left, number) {
            Err(refusal) => {
                let place = leg.place;
                let progress = leg.before;
                return Ending {
                    how: How::Refused(refusal),
                    place,
                    progress,
                };
            }
            Ok(callee) => {
                let ending = run_program(s, list, task, left - 1, callee, leg.after);
                let how = ending.how;
                let How::Returned = how else {
                    return ending;
                };
                p = ending.progress;
                at = leg.byte;
                block = leg.place.block + 1;
                continue;
            }
        }
    }
}

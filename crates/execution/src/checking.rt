// A block's motion planned, tested as a whole, and then written with the records before and after it.
ghost use Rattle.std.specs.Prelude.{◌-◌, ◌≤◌, ◌≡◌};
ghost use Rattle.terms.specs.Common.{ℕ, List, length};
ghost use Rattle.words.specs.declared.Word.{Word};
ghost use Rattle.records.specs.{Serving.Wrote, Writing.moved_bytes, Writing.RoomFor};
ghost use Rattle.work.specs.{Work.way_of, Needs.Writable};
ghost use Rattle.blocks.specs.{Machine.machine_of, Reach.Steady, Exec.working, Calling.freely, Doing.Does};
ghost use Rattle.execution.specs.Steps.{judged_from, planned_records, Plans, Able, none_yet, checked_by};

use crate::{Planned, effects};
use blocks::{Done, Said};
use codes::Misc;
use lengths::Point;
use refusals::{Blame, Refusal};
use settings::State;
use setup::Bed;
use work::{Aim, Extent};

// What a block makes, in the settings in which it moves.
pub fn plan_block(bed: Bed, s: State, b: Said, works: State) -> Planned
    requires { (Steady bed s b) × (works ≡ working s b) }
    ensures { Plans bed s b result }
{
    let modes = b.modes;
    let code = b.code;
    let misc = b.misc;
    let v = b.values;
    let origins = bed.origins;
    let k = modes.origin;
    let origin = origins[k];
    let distance = modes.distance;
    let aim = Aim {
        distance,
        origin,
        values: v,
    };
    let control = effects::control_of(b);
    let first = effects::spindle_record(s, b, works.speed);
    let work = work::work_of(code, b.named, works, origin, v);
    let last = effects::last_record(misc);
    Planned {
        control,
        works,
        aim,
        first,
        work,
        last,
    }
}

// Tests the path of a block as a whole, 1 by geometry, 16 and 9, and answers what all its records come to.
fn check_motion(bed: Bed, p: Planned) -> Result<Extent, Refusal>
    requires { Able bed p }
    ensures { result ≡ checked_by p.work.sound (way_of bed.travel (none_yet p.works.at) (planned_records p)) }
{
    let works = p.works;
    let from = works.at;
    let first = p.first;
    let last = p.last;
    if !p.work.sound {
        return Err(Refusal::BadParameter);
    }
    if !work::work_fits(bed.offset, p.work) {
        return Err(Refusal::CentreTooFar);
    }
    let nothing = Extent {
        end: from,
        room: 0,
        count: 0,
    };
    let spun = work::with_brief(nothing, first);
    let moved = work::check_work(bed.travel, p.work, p.aim, spun).ok_or(Refusal::LeavesTravel)?;
    Ok(work::with_brief(moved, last))
}

// Writes a block's records, and answers the place after them.
fn put_block(list: &mut [u8], at: usize, offset: Point, p: Planned) -> usize
    requires room_for { RoomFor list.old at offset (planned_records p) }
    requires writable { Writable p.work p.aim p.works.at }
    ensures { Wrote list.old at (moved_bytes offset (planned_records p)) list.new result }
{
    let first = p.first;
    let last = p.last;
    let spun = work::put_brief(list, at, first);
    let moved = work::put_work(list, spun, offset, p.work, p.aim, p.works.at);
    work::put_brief(list, moved, last)
}

// Writes a planned block whose path stays, where there is room for all its records.
pub fn write_block(
    list: &mut [u8],
    at: usize,
    bed: Bed,
    start: usize,
    after: usize,
    misc: Misc,
    p: Planned,
) -> Result<Done, Blame>
    requires at_in_bounds { at ≤ length list.old }
    requires able { Able bed p }
    ensures { (s : State) (b : Said) → Plans bed s b p → b.misc ≡ misc → (left : ℕ) (ws : List Word) → Does bed.offset (judged_from 7 (machine_of bed) (freely left) (length list.old - at) s start ws b) list.old at after list.new result }
{
    let control = p.control;
    match check_motion(bed, p) {
        Err(refusal) => Err(Blame {
            refusal,
            byte: start,
        }),
        Ok(e) => {
            if list.len() - at < e.room {
                return Err(Blame {
                    refusal: Refusal::NoRoom,
                    byte: start,
                });
            }
            let next = put_block(list, at, bed.offset, p);
            let state = effects::settled(p.works, misc, e.end);
            Ok(Done {
                state,
                control,
                next,
                count: e.count,
                after,
            })
        }
    }
}

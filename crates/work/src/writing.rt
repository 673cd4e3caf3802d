// Writing a block's records in machine units, one after the other. Each function answers the place after them.
ghost use Rattle.std.specs.Prelude.{◌+◌, ◌≤◌};
ghost use Rattle.terms.specs.Common.{length};
ghost use Rattle.records.specs.{Serving.Wrote, Layout.list_bytes, Layout.room_of, Writing.ListShort, Writing.moved_bytes, Writing.RoomFor};
ghost use Rattle.cycles.specs.Cycles.{pass_to};
ghost use Rattle.work.specs.{Work.work_records, Work.drilled, Work.brief_records, Needs.Writable};

use crate::{Aim, Brief, Pass, Work};
use cycles::Hole;
use lengths::{Len, Point};
use records::Kind;

// A record that leads nowhere is the same in machine units.
pub fn put_brief(list: &mut [u8], at: usize, b: Option<Brief>) -> usize
    requires b_in_bounds { at + room_of (brief_records b) ≤ length list.old }
    requires list_short { ListShort (brief_records b) }
    ensures { Wrote list.old at (list_bytes (brief_records b)) list.new result }
{
    let Some(brief) = b else {
        return at;
    };
    match brief {
        Brief::Speed(speed) => records::put_single(list, at, Kind::SP, speed),
        Brief::SpindleOff => records::put_mark(list, at, Kind::SO),
        Brief::Pause => records::put_mark(list, at, Kind::PA),
        Brief::End => records::put_mark(list, at, Kind::EN),
    }
}

// The records of one pass.
fn put_pass(list: &mut [u8], at: usize, offset: Point, h: Hole, level: Len, to: Point) -> usize
    requires { RoomFor list.old at offset (pass_to h level to) }
    ensures { Wrote list.old at (moved_bytes offset (pass_to h level to)) list.new result }
{
    let n = cycles::row_count(h);
    let mut next = at;
    for i in 0..n {
        next = cycles::put_row(list, next, offset, cycles::row_at(h, i, level, to));
    }
    next
}

// All passes of a hole. They stay in the travel, so that no sum of G91 leaves 64 bits.
fn put_passes(
    list: &mut [u8],
    at: usize,
    offset: Point,
    h: Hole,
    passes: u64,
    aim: Aim,
    from: Point,
) -> usize
    requires room_for { RoomFor list.old at offset (work_records (drilled h passes) aim from) }
    requires writable { Writable (drilled h passes) aim from }
    ensures { Wrote list.old at (moved_bytes offset (work_records (drilled h passes) aim from)) list.new result }
{
    let distance = aim.distance;
    let mut tool = from;
    let mut next = at;
    for _ in 0..passes {
        let to = settings::target_point(distance, aim.origin, tool, aim.values);
        next = put_pass(list, next, offset, h, tool.z, to);
        tool = cycles::pass_end(h, to);
    }
    next
}

// What a block makes by its motion: one record at most, or the passes of a hole.
pub fn put_work(list: &mut [u8], at: usize, offset: Point, w: Work, aim: Aim, from: Point) -> usize
    requires room_for { RoomFor list.old at offset (work_records w aim from) }
    requires writable { Writable w aim from }
    ensures { Wrote list.old at (moved_bytes offset (work_records w aim from)) list.new result }
{
    let pass = w.pass;
    match pass {
        Pass::One(r) => {
            if w.passes == 0 {
                return at;
            }
            records::put(list, at, offset, r)
        }
        Pass::Drill(h) => put_passes(list, at, offset, h, w.passes, aim, from),
    }
}

// What is asked of a block's work before it is written: its centres, its path, and what its records come to.
ghost use Rattle.std.specs.Prelude.{◌+◌, ◌^◌, ◌≤◌, ◌≡◌, ◌∷◌};
ghost use Rattle.terms.specs.Common.{true, []};
ghost use Rattle.lengths.specs.{Near.Near, Points.inside};
ghost use Rattle.records.specs.{Path.path_of, Path.record_moved, Displacing.Loose};
ghost use Rattle.arcs.specs.{Arcs.centre_fits, Arcs.path_stays, Bounds.PathBounds};
ghost use Rattle.cycles.specs.Cycles.{pass_to};
ghost use Rattle.work.specs.Work.{work_records, drilled, brief_records, pass_fits, grown, way_of};
ghost use Rattle.work.specs.Needs.{PassLoose, Little, Testable};

use crate::{Aim, Brief, Extent, Pass, Work};
use cycles::Hole;
use lengths::{Point, Travel};
use records::{Kind, Record};

// Whether a record can be written in machine units: only an arc has a centre, which may lie too far away.
fn record_fits(by: Point, r: Record) -> bool
    requires { (Near (2 ^ 61) by) × Loose (path_of r) }
    ensures { result ≡ centre_fits (path_of (record_moved by r)) }
{
    match r {
        Record::AR(a) | Record::AL(a) => arcs::centre_fits(by, a),
        _ => true,
    }
}

// Whether the centres of the records fit four bytes in machine units. A hole has none.
pub fn work_fits(offset: Point, w: Work) -> bool
    requires { (Near (2 ^ 61) offset) × PassLoose w.pass }
    ensures { result ≡ pass_fits offset w.pass }
{
    let pass = w.pass;
    match pass {
        Pass::One(r) => record_fits(offset, r),
        Pass::Drill(_) => true,
    }
}

// One record more, which leads to a point and takes so many bytes.
fn longer(e: Extent, end: Point, bytes: usize) -> Extent
    requires { (Little e) × (bytes ≤ 27) }
    ensures { result ≡ record { end = end; room = e.room + bytes; count = e.count + 1 } }
{
    Extent {
        end,
        room: e.room + bytes,
        count: e.count + 1,
    }
}

// Such a record leads nowhere, and but for the spindle's it is its mark alone.
pub fn with_brief(e: Extent, b: Option<Brief>) -> Extent
    requires { Little e }
    ensures { result ≡ grown e (brief_records b) }
{
    let Some(brief) = b else {
        return e;
    };
    match brief {
        Brief::Speed(_) => longer(e, e.end, records::kind_length(Kind::SP)),
        _ => longer(e, e.end, records::kind_length(Kind::SO)),
    }
}

// Whether the path that a record tells stays in the travel.
fn path_stays(t: Travel, from: Point, r: Record) -> bool
    requires { PathBounds t from (path_of r) }
    ensures { result ≡ path_stays t from (path_of r) }
{
    match r {
        Record::RP(p) | Record::LN(p, _) => lengths::is_inside(t, p),
        Record::AR(a) => arcs::right_arc_stays(t, from, a),
        Record::AL(a) => arcs::left_arc_stays(t, from, a),
        _ => true,
    }
}

// One record, from where the tool is: what it comes to, or none where it leads out of the travel.
fn check_record(t: Travel, r: Record, e: Extent) -> Option<Extent>
    requires { (PathBounds t e.end (path_of r)) × Little e }
    ensures { result ≡ way_of t e (r ∷ []) }
{
    if !path_stays(t, e.end, r) {
        return None;
    }
    Some(longer(e, records::path_end(e.end, r), records::room(r)))
}

// One pass to X, Y of a point, from where the tool is, inside the travel. It has no arc, so that its path stays where each of its
// records ends inside.
fn check_pass(t: Travel, h: Hole, to: Point, e: Extent) -> Option<Extent>
    requires { (inside t e.end ≡ true) × Little e }
    ensures { result ≡ way_of t e (pass_to h e.end.z to) }
{
    let n = cycles::row_count(h);
    let mut end = e.end;
    let level = end.z;
    let mut room = e.room;
    for i in 0..n {
        let row = cycles::row_at(h, i, level, to);
        end = cycles::row_end(end, row);
        if !lengths::is_inside(t, end) {
            return None;
        }
        room += cycles::row_room(row);
    }
    Some(Extent {
        end,
        room,
        count: e.count + n,
    })
}

// All passes of a hole. G91 adds X and Y at each pass, up to 9,999 times: the first pass that leaves the travel ends the search, so that
// no point lies further from the travel than one word leads.
fn check_passes(t: Travel, h: Hole, passes: u64, aim: Aim, e: Extent) -> Option<Extent>
    requires { Testable t (drilled h passes) aim e }
    ensures { result ≡ way_of t e (work_records (drilled h passes) aim e.end) }
{
    let distance = aim.distance;
    let mut so_far = e;
    for _ in 0..passes {
        let to = settings::target_point(distance, aim.origin, so_far.end, aim.values);
        so_far = check_pass(t, h, to, so_far)?;
    }
    Some(so_far)
}

// What a block makes by its motion: one record at most, or the passes of a hole.
pub fn check_work(t: Travel, w: Work, aim: Aim, e: Extent) -> Option<Extent>
    requires { Testable t w aim e }
    ensures { result ≡ way_of t e (work_records w aim e.end) }
{
    let pass = w.pass;
    match pass {
        Pass::One(r) => {
            if w.passes == 0 {
                return Some(e);
            }
            check_record(t, r, e)
        }
        Pass::Drill(h) => check_passes(t, h, w.passes, aim, e),
    }
}

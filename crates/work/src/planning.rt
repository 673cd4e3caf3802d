// The motion of a block as a plan.
ghost use Rattle.std.specs.Prelude.{◌≡◌, if◌then◌else◌};
ghost use Rattle.settings.specs.{Target.target, Bounds.Aims};
ghost use Rattle.codes.specs.declared.Motion.TheVariants.{Drilling};
ghost use Rattle.letters.specs.declared.BlockCode.TheVariants.{Moving};
ghost use Rattle.blocks.specs.Motions.{no_moves, one, end_stands, centre_given, arc_stands, cycle_done, centre_words, centre_for, radius_fits, arc_to, arc_moves, is_larger, motion_of, moves_of};
ghost use Rattle.work.specs.Work.{no_work, one_work, straight_record, arc_record, is_clockwise, lies_left};
ghost use Rattle.work.specs.Needs.{Poised, Aiming, Fitting, Counted, Makes};

use crate::{Pass, Work};
use codes::{Cycle, Motion};
use lengths::{Flat, Len, Point};
use letters::BlockCode;
use records::{Arc, Record};
use settings::State;
use words::Values;

// Whether a word of the end stands.
pub fn end_stands(v: Values) -> bool
    ensures { result ≡ end_stands v }
{
    v.x.is_some() | v.y.is_some() | v.z.is_some()
}

// Whether a word of the centre or the radius stands.
pub fn centre_given(v: Values) -> bool
    ensures { result ≡ centre_given v }
{
    v.i.is_some() | v.j.is_some() | v.k.is_some() | v.r.is_some()
}

// A cycle is done where the block names one, and else where X, Y, Z or R stands.
pub fn cycle_done(named: bool, v: Values) -> bool
    ensures { result ≡ cycle_done named v }
{
    named | end_stands(v) | v.r.is_some()
}

fn centre_words(v: Values) -> Point
    ensures { result ≡ centre_words v }
{
    Point {
        x: v.i.unwrap_or(Len::zero()),
        y: v.j.unwrap_or(Len::zero()),
        z: v.k.unwrap_or(Len::zero()),
    }
}

// Whether a circle of the radius goes through start and end, where R stands.
fn radius_fits(s: State, v: Values, end: Point) -> bool
    requires { Aiming s v end }
    ensures { result ≡ radius_fits s v end }
{
    let modes = s.modes;
    let plane = modes.plane;
    let Some(r) = v.r else {
        return true;
    };
    centres::radius_holds(
        r,
        lengths::in_plane(plane, s.at),
        lengths::in_plane(plane, end),
    )
}

// The centre of an arc: by the radius where R stands, else by the centre's words from the start.
fn centre_for(left: bool, s: State, v: Values, end: Point) -> Flat
    requires { Fitting s v end }
    ensures { result ≡ centre_for left s v end }
{
    let modes = s.modes;
    let plane = modes.plane;
    if let Some(r) = v.r {
        return centres::centre_by(
            left,
            r,
            lengths::in_plane(plane, s.at),
            lengths::in_plane(plane, end),
        );
    }
    lengths::in_plane(plane, lengths::moved(centre_words(v), s.at))
}

fn arc_to(left: bool, s: State, v: Values, end: Point) -> Arc
    requires { Fitting s v end }
    ensures { result ≡ arc_to left s v end }
{
    let modes = s.modes;
    let plane = modes.plane;
    let feed = s.feed;
    let centre = centre_for(left, s, v, end);
    let first = centre.first;
    let second = centre.second;
    Arc {
        plane,
        end,
        first,
        second,
        feed,
    }
}

// R negative is the arc of more than half a turn.
fn is_larger(v: Values) -> bool
    ensures { result ≡ is_larger v }
{
    v.r.unwrap_or(Len::zero()).below(Len::zero())
}

fn no_work(sound: bool) -> Work
    ensures { result ≡ no_work sound }
{
    Work {
        pass: Pass::One(Record::PA),
        passes: 0,
        sound,
    }
}

fn one_work(r: Record, sound: bool) -> Work
    ensures { result ≡ one_work r sound }
{
    Work {
        pass: Pass::One(r),
        passes: 1,
        sound,
    }
}

// A rapid, or a cut.
fn straight_work(cuts: bool, s: State, origin: Point, v: Values) -> Work
    requires { Aims origin s.at v }
    ensures { Makes (if end_stands v then one (straight_record cuts (target s.modes.distance origin s.at v) s.feed) else no_moves) s origin v result }
{
    let modes = s.modes;
    let d = modes.distance;
    let feed = s.feed;
    if !end_stands(v) {
        return no_work(true);
    }
    let end = settings::target_point(d, origin, s.at, v);
    if cuts {
        return one_work(Record::LN(end, feed), true);
    }
    one_work(Record::RP(end), true)
}

// An arc by its sense, whose centre lies to the left of the way from start to end or to the right. Without a word of the end and of
// the centre, and without R, its code is on and does nothing.
fn arc_work(clockwise: bool, left: bool, s: State, origin: Point, v: Values) -> Work
    requires { Poised s origin v }
    ensures { Makes (if arc_stands v then arc_moves (arc_record clockwise) left s v (target s.modes.distance origin s.at v) else no_moves) s origin v result }
{
    let modes = s.modes;
    let d = modes.distance;
    if !(end_stands(v) | centre_given(v)) {
        return no_work(true);
    }
    let end = settings::target_point(d, origin, s.at, v);
    if !radius_fits(s, v, end) {
        return no_work(false);
    }
    let a = arc_to(left, s, v, end);
    let sound = arcs::arc_holds(s.at, a);
    if clockwise {
        return one_work(Record::AR(a), sound);
    }
    one_work(Record::AL(a), sound)
}

fn cycle_work(cycle: Cycle, named: bool, s: State, origin: Point, v: Values) -> Work
    requires { (Poised s origin v) × Counted (Moving (Drilling cycle)) v }
    ensures { Makes (motion_of (Drilling cycle) named s origin v) s origin v result }
{
    if !cycle_done(named, v) {
        return no_work(true);
    }
    let h = cycles::hole_of(cycle, s, origin);
    Work {
        pass: Pass::Drill(h),
        passes: cycles::pass_count(v.k),
        sound: cycles::levels_hold(h),
    }
}

fn is_clockwise(motion: Motion) -> bool
    ensures { result ≡ is_clockwise motion }
{
    matches!(motion, Motion::G02)
}

// Whether the centre of an arc by its radius lies to the left of the way from start to end.
fn lies_left(clockwise: bool, v: Values) -> bool
    ensures { result ≡ lies_left clockwise v }
{
    if clockwise {
        is_larger(v)
    } else {
        !is_larger(v)
    }
}

// Both arcs are made at one place, and asked for first, so that the compiler joins `arc_work` to it and copies nothing for it elsewhere.
fn motion_work(motion: Motion, named: bool, s: State, origin: Point, v: Values) -> Work
    requires { (Poised s origin v) × Counted (Moving motion) v }
    ensures { Makes (motion_of motion named s origin v) s origin v result }
{
    if letters::turns(motion) {
        let clockwise = is_clockwise(motion);
        return arc_work(clockwise, lies_left(clockwise, v), s, origin, v);
    }
    match motion {
        Motion::G00 => straight_work(false, s, origin, v),
        Motion::G01 => straight_work(true, s, origin, v),
        Motion::Drilling(cycle) => cycle_work(cycle, named, s, origin, v),
        _ => no_work(true),
    }
}

// What a block makes, by its code. The state is that in which the block moves.
pub fn work_of(code: BlockCode, named: bool, s: State, origin: Point, v: Values) -> Work
    requires { (Poised s origin v) × Counted code v }
    ensures { Makes (moves_of code named s origin v) s origin v result }
{
    match code {
        BlockCode::Calling | BlockCode::Returning => no_work(true),
        BlockCode::Dwelling => one_work(Record::DW(v.p.unwrap_or(Len::zero())), true),
        BlockCode::Moving(motion) => motion_work(motion, named, s, origin, v),
    }
}

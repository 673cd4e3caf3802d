// The settings that hold from block to block. A block's new settings are made by one named function each.
#![tactic(auto)]

mod cycle_words;
mod printing;

ghost use Rattle.std.specs.Prelude.{◌≡◌, ◌^◌};
ghost use Rattle.lengths.specs.{View.Within, Near.Near};
ghost use Rattle.settings.specs.{Settings.first_modes, Settings.first_state, Settings.kept_moved, Settings.state_moved, Settings.switched, Settings.or_else, Target.base, Target.aimed};
ghost use Rattle.settings.specs.Bounds.{Sized, Aims, Aimed};

use codes::{Code, Distance, Motion, Plane, Return, Unit};
pub use cycle_words::kept_under;
use lengths::{Len, Point};
use words::Values;

// The code that is on in each of the groups A to F; origin is the place in the table of origins, from 0.
#[derive(Clone, Copy)]
pub struct Modes {
    pub motion: Motion,
    pub plane: Plane,
    pub unit: Unit,
    pub distance: Distance,
    pub origin: usize,
    pub back: Return,
}

// Which words of a cycle are kept, beside their numbers: one value for each kept word was measured as slower (docs/SPEED.md).
#[derive(Clone, Copy)]
pub struct Stands {
    pub z: bool,
    pub r: bool,
    pub dwell: bool,
}

// The G90 or G91 that the words of its two levels were written under.
#[derive(Clone, Copy)]
pub struct Under {
    pub z: Distance,
    pub r: Distance,
}

// What a cycle keeps: the initial level, which is the height before a cycle was switched on, in the frame of the common offset; and the
// words of Z, R and P, in units and milliseconds, each 0 until it is written. Numbers stand before what is told of them, so that all of
// it is small: it is copied with the settings from block to block.
#[derive(Clone, Copy)]
pub struct Kept {
    pub initial: Len,
    pub z: Len,
    pub r: Len,
    pub dwell: Len,
    pub stands: Stands,
    pub under: Under,
}

// The tool's point is kept in the frame of the common offset: the machine point less EXOFS.
#[derive(Clone, Copy)]
pub struct State {
    pub at: Point,
    pub modes: Modes,
    pub feed: Len,
    pub speed: Len,
    pub turning: bool,
    pub kept: Kept,
}

// What a run starts with in each group.
pub fn first_modes() -> Modes
    ensures { result ≡ first_modes }
{
    Modes {
        motion: Motion::Off,
        plane: Plane::G17,
        unit: Unit::Millimetre,
        distance: Distance::Absolute,
        origin: 0,
        back: Return::ToInitial,
    }
}

// What a run starts with, at a point and with the feed and the speed of the setup.
pub fn first_state(start: Point, feed: Len, speed: Len) -> State
    ensures { result ≡ first_state start feed speed }
{
    State {
        at: start,
        modes: first_modes(),
        feed,
        speed,
        turning: false,
        kept: cycle_words::none_kept(start.z),
    }
}

// The settings after a code.
pub fn switched(m: Modes, c: Code) -> Modes
    ensures { result ≡ switched m c }
{
    match c {
        Code::GroupA(motion) => Modes { motion, ..m },
        Code::GroupB(plane) => Modes { plane, ..m },
        Code::GroupC(unit) => Modes { unit, ..m },
        Code::GroupD(distance) => Modes { distance, ..m },
        Code::GroupE(origin) => Modes { origin, ..m },
        Code::GroupF(back) => Modes { back, ..m },
        Code::G04 | Code::Unknown => m,
    }
}

// The value of a word, or else what holds without it.
pub fn or_else(g: Option<Len>, other: Len) -> Len
    ensures { result ≡ or_else g other }
{
    g.unwrap_or(other)
}

fn base(d: Distance, origin: Len, from: Len) -> Len
    ensures { result ≡ base d origin from }
{
    match d {
        Distance::Absolute => origin,
        Distance::Incremental => from,
    }
}

// Where a word leads on its axis. The bounds are a run's, but for `from`, which may be a level that a word led to.
pub fn aimed(d: Distance, origin: Len, from: Len, g: Option<Len>) -> Len
    requires { Sized origin from g }
    ensures { result ≡ aimed d origin from g }
{
    match g {
        Some(v) => base(d, origin, from).plus(v),
        None => from,
    }
}

// Where the words of a straight move lead.
pub fn target_point(d: Distance, origin: Point, from: Point, v: Values) -> Point
    requires { Aims origin from v }
    ensures { Aimed d origin from v result }
{
    Point {
        x: aimed(d, origin.x, from.x, v.x),
        y: aimed(d, origin.y, from.y, v.y),
        z: aimed(d, origin.z, from.z, v.z),
    }
}

// What a cycle keeps, in machine units: of it the initial level alone is a height.
fn kept_moved(by: Len, k: Kept) -> Kept
    requires { (Within (2 ^ 61) by.v) × (Within (2 ^ 61) k.initial.v) }
    ensures { result ≡ kept_moved by k }
{
    Kept {
        initial: k.initial.plus(by),
        ..k
    }
}

// The settings in machine units.
pub fn state_moved(by: Point, s: State) -> State
    requires { (Near (2 ^ 61) by) × (Near (2 ^ 61) s.at) × (Within (2 ^ 61) s.kept.initial.v) }
    ensures { result ≡ state_moved by s }
{
    State {
        at: lengths::moved(by, s.at),
        kept: kept_moved(by.z, s.kept),
        ..s
    }
}

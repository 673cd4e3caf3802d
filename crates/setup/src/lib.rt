// The setup of a machine: its 35 numbers, in document 01's order, whatever they are.
#![tactic(auto)]

mod faults;
mod numbers_to_try;
mod printing;

ghost use Rattle.std.specs.Prelude.{◌≡◌};
ghost use Rattle.terms.specs.{Common.true, Common.map, Terms.between, Terms.within};
ghost use Rattle.lengths.specs.Units.{len};
ghost use Rattle.setup.specs.Limits.{feed_fits, range_fits, speed_fits, switch_fits, valid_setup};
ghost use Rattle.setup.specs.Frame.{point_of, start_of, travel_of, bed_of, switch_on};

pub use faults::fault_of;
use lengths::{Len, Point, Travel};
pub use numbers_to_try::setup_t;

// How far from 0 an end of the travel may be, and how far the common offset and an origin.
pub const TRAVEL_LIMIT: u64 = 100_000_000;

pub const OFFSET_LIMIT: u64 = 1_000_000_000;

// One number for each axis.
#[derive(Clone, Copy)]
pub struct Axes {
    pub x: i64,
    pub y: i64,
    pub z: i64,
}

#[derive(Clone, Copy)]
pub struct Setup {
    pub low: Axes,
    pub high: Axes,
    pub start: Axes,
    pub exofs: Axes,
    pub origins: [Axes; 6],
    pub feed: i64,
    pub lowest: i64,
    pub highest: i64,
    pub speed: i64,
    pub skip: i64,
}

// The machine's bed as a block sees it: the setup's lengths in the frame of the common offset.
#[derive(Clone, Copy)]
pub struct Bed {
    pub offset: Point,
    pub travel: Travel,
    pub origins: [Point; 6],
    pub lowest: Len,
    pub highest: Len,
}

#[derive(Clone, Copy)]
pub enum Axis {
    X,
    Y,
    Z,
}

// What a length is measured to: the common offset, or a workpiece origin by its place in the table, from 0 for G54 to 5 for
// G59.
// It has the shape of an `Option<usize>`, but its two names say what is measured.
#[derive(Clone, Copy)]
pub enum Offset {
    Common,
    Origin(usize),
}

// The limit that is broken, and on which axis.
#[derive(Clone, Copy)]
pub enum Fault {
    TravelOrder(Axis),
    TravelFar(Axis),
    StartOutside(Axis),
    OffsetFar(Offset, Axis),
    Feed,
    Speeds,
    Speed,
    Switch,
}

// The numbers of three axes as lengths, so that what follows compares no raw number.
pub fn point_of(a: Axes) -> Point
    ensures { result ≡ point_of a }
{
    Point {
        x: Len::of(a.x),
        y: Len::of(a.y),
        z: Len::of(a.z),
    }
}

pub fn is_within(n: u64, v: Len) -> bool
    ensures { result ≡ within n v.v }
{
    v.apart(Len::zero()) <= n
}

pub fn is_between(low: Len, high: Len, v: Len) -> bool
    ensures { result ≡ between low.v high.v v.v }
{
    low.at_most(v) & v.at_most(high)
}

// The five numbers that belong to no axis, as lengths. A function for each, since they differ in a field's name alone, and no
// function takes one.
pub fn feed_of(s: Setup) -> Len
    ensures { result ≡ len s.feed }
{
    Len::of(s.feed)
}

pub fn speed_of(s: Setup) -> Len
    ensures { result ≡ len s.speed }
{
    Len::of(s.speed)
}

fn lowest_of(s: Setup) -> Len
    ensures { result ≡ len s.lowest }
{
    Len::of(s.lowest)
}

fn highest_of(s: Setup) -> Len
    ensures { result ≡ len s.highest }
{
    Len::of(s.highest)
}

fn switch_of(s: Setup) -> Len
    ensures { result ≡ len s.skip }
{
    Len::of(s.skip)
}

pub fn feed_fits(s: Setup) -> bool
    ensures { result ≡ feed_fits s }
{
    is_between(Len::of_count(1), Len::of_count(1_000_000_000), feed_of(s))
}

pub fn range_fits(s: Setup) -> bool
    ensures { result ≡ range_fits s }
{
    let one = Len::of_count(1);
    let most = Len::of_count(99_999);
    let lowest = lowest_of(s);
    let highest = highest_of(s);
    is_between(one, most, lowest) & is_between(one, most, highest) & lowest.at_most(highest)
}

pub fn speed_fits(s: Setup) -> bool
    ensures { result ≡ speed_fits s }
{
    is_between(lowest_of(s), highest_of(s), speed_of(s))
}

pub fn switch_fits(s: Setup) -> bool
    ensures { result ≡ switch_fits s }
{
    is_between(Len::zero(), Len::of_count(1), switch_of(s))
}

// Whether the setup keeps every limit of document 01.
pub fn is_valid(s: Setup) -> bool
    ensures { result ≡ valid_setup s }
{
    fault_of(s).is_none()
}

pub fn skips(s: Setup) -> bool
    ensures { result ≡ switch_on s }
{
    Len::zero().below(switch_of(s))
}

// The point where a run starts, in the frame of the common offset. The limits leave the difference room.
pub fn start_of(s: Setup) -> Point
    requires { valid_setup s ≡ true }
    ensures { result ≡ start_of s }
{
    lengths::moved_back(point_of(s.exofs), point_of(s.start))
}

fn travel_of(s: Setup) -> Travel
    requires { valid_setup s ≡ true }
    ensures { result ≡ travel_of s }
{
    let offset = point_of(s.exofs);
    Travel {
        low: lengths::moved_back(offset, point_of(s.low)),
        high: lengths::moved_back(offset, point_of(s.high)),
    }
}

fn origins_of(origins: [Axes; 6]) -> [Point; 6]
    ensures { result ≡ map point_of origins }
{
    origins.map(point_of)
}

// The machine's bed: the lengths of a valid setup in the frame of the common offset.
pub fn bed_of(s: Setup) -> Bed
    requires { valid_setup s ≡ true }
    ensures { result ≡ bed_of s }
{
    let raw = s.origins;
    let origins = origins_of(raw);
    Bed {
        offset: point_of(s.exofs),
        travel: travel_of(s),
        origins,
        lowest: lowest_of(s),
        highest: highest_of(s),
    }
}

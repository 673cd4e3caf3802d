// Cycles: the levels of a hole and its passes. All passes of a block are tested before a byte of them is written.
#![tactic(auto)]

ghost use Rattle.std.specs.Prelude.{◌≡◌, ◌<◌, ◌∷◌, ◌++◌};
ghost use Rattle.terms.specs.Common.{[], length};
ghost use Rattle.lengths.specs.View.{Within};
ghost use Rattle.words.specs.Values.{worth};
ghost use Rattle.records.specs.{Path.path_of, Path.path_end, Path.end_of, Layout.kind_of, Layout.kind_length, Writing.moved_bytes, Writing.RoomFor, Serving.Wrote};
ghost use Rattle.settings.specs.{CycleWords.kept_z, CycleWords.kept_r, Bounds.Sized};
ghost use Rattle.cycles.specs.Cycles.{level_r, level_z, hole_of, levels_hold, return_level, dwelling, leaving, pass_to};
ghost use Rattle.cycles.specs.Bounds.{Holes, Counts, UpLength, PassLength, Stands, row_record};

use codes::{Cycle, Return};
use lengths::{Len, Point};
use records::Kind;
use settings::{Kept, State};

// A record of a pass: a rapid, a cut or a dwell.
#[derive(Clone, Copy)]
pub enum Row {
    Rapid(Point),
    Cut(Point, Len),
    Dwell(Len),
}

// What a cycle does at each pass. The levels are heights in the frame of the common offset: the initial level that is held, the height
// where the tool stood before the block, and those of R and Z; z and dwell are none where no Z and no P is kept.
#[derive(Clone, Copy)]
pub struct Hole {
    pub cycle: Cycle,
    pub back: Return,
    pub initial: Len,
    pub stood: Len,
    pub r: Len,
    pub z: Option<Len>,
    pub dwell: Option<Len>,
    pub feed: Len,
}

// The height of R: it leads from the initial level.
fn level_r(origin: Point, kept: Kept) -> Len
    requires { Sized origin.z kept.initial (kept_r kept) }
    ensures { result ≡ level_r origin kept }
{
    let word = kept.stands.r.then_some(kept.r);
    settings::aimed(kept.under.r, origin.z, kept.initial, word)
}

// The height of Z: it leads from R.
fn level_z(origin: Point, r: Len, kept: Kept) -> Len
    requires { Sized origin.z r (kept_z kept) }
    ensures { result ≡ level_z origin r kept }
{
    let word = kept.stands.z.then_some(kept.z);
    settings::aimed(kept.under.z, origin.z, r, word)
}

// The hole of a block, by what its cycle keeps.
pub fn hole_of(cycle: Cycle, s: State, origin: Point) -> Hole
    requires { Holes origin s }
    ensures { result ≡ hole_of cycle s origin }
{
    let kept = s.kept;
    let r = level_r(origin, kept);
    let depth = level_z(origin, r, kept);
    Hole {
        cycle,
        back: s.modes.back,
        initial: kept.initial,
        stood: s.at.z,
        r,
        z: kept.stands.z.then_some(depth),
        dwell: kept.stands.dwell.then_some(kept.dwell),
        feed: s.feed,
    }
}

// Z is not above R, and R not above the initial level.
pub fn levels_hold(h: Hole) -> bool
    ensures { result ≡ levels_hold h }
{
    match h.z {
        Some(z) => z.at_most(h.r) & h.r.at_most(h.initial),
        None => h.r.at_most(h.initial),
    }
}

pub fn return_level(h: Hole) -> Len
    ensures { result ≡ return_level h }
{
    match h.back {
        Return::ToInitial => h.initial,
        Return::ToR => h.r,
    }
}

// How many passes a K asks for. Its value is a count from 0 to 9,999.
pub fn pass_count(k: Option<Len>) -> u64
    requires { Within 9_999 (worth k).v }
    ensures { Counts k result }
{
    match k {
        Some(n) => n.apart(Len::zero()),
        None => 1,
    }
}

// How many records lead back up: under G98, G85 and G89 have a second one.
fn up_count(cycle: Cycle, back: Return) -> usize
    ensures { UpLength cycle back result }
{
    match cycle {
        Cycle::G81 | Cycle::G82 => 1,
        _ => match back {
            Return::ToInitial => 2,
            Return::ToR => 1,
        },
    }
}

// How many records a pass has, wherever it is.
pub fn row_count(h: Hole) -> usize
    ensures { PassLength h result }
{
    if h.z.is_none() {
        return 1;
    }
    if h.dwell.is_some() {
        return 4 + up_count(h.cycle, h.back);
    }
    3 + up_count(h.cycle, h.back)
}

// The records of the way back up: the second one is the rapid that G98 adds to G85 and G89.
fn row_up(h: Hole, i: usize, p: Point) -> Row
    requires { i < length (leaving h.cycle h p) }
    ensures { Stands (leaving h.cycle h p) i (row_record result) }
{
    if i == 1 {
        return Row::Rapid(lengths::at_height(p, h.initial));
    }
    match h.cycle {
        Cycle::G81 | Cycle::G82 => Row::Rapid(lengths::at_height(p, return_level(h))),
        Cycle::G85 | Cycle::G89 => Row::Cut(lengths::at_height(p, h.r), h.feed),
    }
}

// The records after the cut to Z: the dwell, where a P stands, and the way back up.
fn row_after_cut(h: Hole, i: usize, p: Point) -> Row
    requires { i < length (dwelling h.dwell ++ leaving h.cycle h p) }
    ensures { Stands (dwelling h.dwell ++ leaving h.cycle h p) i (row_record result) }
{
    let Some(ms) = h.dwell else {
        return row_up(h, i, p);
    };
    if i == 0 {
        return Row::Dwell(ms);
    }
    row_up(h, i - 1, p)
}

// The i-th record of a pass at X, Y of a point, which comes at a level.
pub fn row_at(h: Hole, i: usize, level: Len, p: Point) -> Row
    requires { i < length (pass_to h level p) }
    ensures { Stands (pass_to h level p) i (row_record result) }
{
    let Some(z) = h.z else {
        return Row::Rapid(lengths::at_height(p, h.stood));
    };
    if i == 0 {
        return Row::Rapid(lengths::at_height(p, level));
    }
    if i == 1 {
        return Row::Rapid(lengths::at_height(p, h.r));
    }
    if i == 2 {
        return Row::Cut(lengths::at_height(p, z), h.feed);
    }
    row_after_cut(h, i - 3, p)
}

// Where a pass leaves the tool.
pub fn pass_end(h: Hole, p: Point) -> Point
    ensures { (level : Len) (from : Point) → result ≡ end_of from (pass_to h level p) }
{
    if h.z.is_some() {
        lengths::at_height(p, return_level(h))
    } else {
        lengths::at_height(p, h.stood)
    }
}

// Where a record of a pass leads from a point.
pub fn row_end(from: Point, row: Row) -> Point
    ensures { result ≡ path_end from (path_of (row_record row)) }
{
    match row {
        Row::Rapid(p) => p,
        Row::Cut(p, _) => p,
        Row::Dwell(_) => from,
    }
}

// How many bytes it takes.
pub fn row_room(row: Row) -> usize
    ensures { result ≡ kind_length (kind_of (row_record row)) }
{
    match row {
        Row::Rapid(_) => records::kind_length(Kind::RP),
        Row::Cut(_, _) => records::kind_length(Kind::LN),
        Row::Dwell(_) => records::kind_length(Kind::DW),
    }
}

// Writes it at a place of the list, in machine units.
pub fn put_row(list: &mut [u8], at: usize, by: Point, row: Row) -> usize
    requires { RoomFor list.old at by (row_record row ∷ []) }
    ensures { Wrote list.old at (moved_bytes by (row_record row ∷ [])) list.new result }
{
    match row {
        Row::Rapid(p) => records::put_rapid(list, at, by, p),
        Row::Cut(p, feed) => records::put_cut(list, at, by, p, feed),
        Row::Dwell(ms) => records::put_single(list, at, Kind::DW, ms),
    }
}

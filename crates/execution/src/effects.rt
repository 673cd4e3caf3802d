// What a block does beside its motion, in the order of effects.
ghost use Rattle.std.specs.Prelude.{◌≡◌};
ghost use Rattle.terms.specs.Common.{nat_abs};
ghost use Rattle.words.specs.Values.{worth};
ghost use Rattle.blocks.specs.Exec.{kept_by, working, spindle_records, last_records, control_of};
ghost use Rattle.work.specs.Work.{brief_records};
ghost use Rattle.execution.specs.Steps.{settled_at};

use blocks::{Control, Said};
use codes::{Distance, Misc};
use lengths::{Len, Point};
use letters::BlockCode;
use settings::{Kept, State};
use words::Values;
use work::Brief;

// What is kept of a cycle: G04, M98 and M99 leave it as it is.
fn kept_by(code: BlockCode, s: State, d: Distance, v: Values) -> Kept
    ensures { result ≡ kept_by code s d v }
{
    match code {
        BlockCode::Moving(motion) => settings::kept_under(motion, s, d, v),
        _ => s.kept,
    }
}

// The settings in which the block moves: after groups A to F, the F word, S and M03, and with what its cycle keeps.
pub fn working(s: State, b: Said) -> State
    ensures { result ≡ working s b }
{
    let at = s.at;
    let modes = b.modes;
    let code = b.code;
    let distance = modes.distance;
    let misc = b.misc;
    let feed = settings::or_else(b.values.f, s.feed);
    let speed = settings::or_else(b.values.s, s.speed);
    let turning = s.turning | (misc == Misc::M03);
    let kept = kept_by(code, s, distance, b.values);
    State {
        at,
        modes,
        feed,
        speed,
        turning,
        kept,
    }
}

// S with the spindle turning, or M03, writes one spindle record. The speed is that which the block works with.
pub fn spindle_record(s: State, b: Said, speed: Len) -> Option<Brief>
    requires { speed ≡ (working s b).speed }
    ensures { brief_records result ≡ spindle_records s b }
{
    let misc = b.misc;
    if (s.turning & b.values.s.is_some()) | (misc == Misc::M03) {
        return Some(Brief::Speed(speed));
    }
    None
}

// What the M code writes after the motion.
pub fn last_record(misc: Misc) -> Option<Brief>
    ensures { brief_records result ≡ last_records misc }
{
    match misc {
        Misc::M05 => Some(Brief::SpindleOff),
        Misc::M00 => Some(Brief::Pause),
        Misc::M02 | Misc::M30 => Some(Brief::End),
        _ => None,
    }
}

// The number that M98 calls. The value of P is not negative there.
fn called(p: Option<Len>) -> u64
    ensures { result ≡ nat_abs (worth p).v }
{
    p.unwrap_or(Len::zero()).apart(Len::zero())
}

pub fn control_of(b: Said) -> Control
    ensures { result ≡ control_of b }
{
    let misc = b.misc;
    match misc {
        Misc::M98 => Control::Call(called(b.values.p)),
        Misc::M99 => Control::Back,
        Misc::M02 | Misc::M30 => Control::Stop,
        _ => Control::On,
    }
}

// The settings after the block, whose path ended at a point.
pub fn settled(w: State, misc: Misc, end: Point) -> State
    ensures { result ≡ settled_at w misc end }
{
    let modes = w.modes;
    let feed = w.feed;
    let speed = w.speed;
    let turning = w.turning & (misc != Misc::M05);
    let kept = w.kept;
    State {
        at: end,
        modes,
        feed,
        speed,
        turning,
        kept,
    }
}

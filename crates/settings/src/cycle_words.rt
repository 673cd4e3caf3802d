// What a cycle keeps for the blocks after it: the words of Z, R and P, and the initial level.
ghost use Rattle.std.specs.Prelude.{◌≡◌};
ghost use Rattle.settings.specs.{Settings.none_kept, CycleWords.kept_before, CycleWords.under_by, CycleWords.stands_with, CycleWords.under_with, CycleWords.kept_with, CycleWords.kept_under};

use crate::{Kept, Stands, State, Under};
use codes::{Cycle, Distance, Motion};
use lengths::Len;
use words::Values;

// No word is kept.
pub fn none_kept(initial: Len) -> Kept
    ensures { result ≡ none_kept initial }
{
    Kept {
        initial,
        z: Len::zero(),
        r: Len::zero(),
        dwell: Len::zero(),
        stands: Stands {
            z: false,
            r: false,
            dwell: false,
        },
        under: Under {
            z: Distance::Absolute,
            r: Distance::Absolute,
        },
    }
}

// What a cycle finds: all that is kept where it was on before, the initial level alone where another cycle was, and else the height
// where the tool is.
fn kept_before(cycle: Cycle, motion: Motion, z: Len, kept: Kept) -> Kept
    ensures { result ≡ kept_before cycle motion z kept }
{
    let Motion::Drilling(other) = motion else {
        return none_kept(z);
    };
    if cycle == other {
        return kept;
    }
    none_kept(kept.initial)
}

fn under_by(d: Distance, g: Option<Len>, kept: Distance) -> Distance
    ensures { result ≡ under_by d g kept }
{
    if g.is_some() { d } else { kept }
}

fn stands_with(v: Values, kept: Stands) -> Stands
    ensures { result ≡ stands_with v kept }
{
    Stands {
        z: v.z.is_some() | kept.z,
        r: v.r.is_some() | kept.r,
        dwell: v.p.is_some() | kept.dwell,
    }
}

fn under_with(d: Distance, v: Values, kept: Under) -> Under
    ensures { result ≡ under_with d v kept }
{
    Under {
        z: under_by(d, v.z, kept.z),
        r: under_by(d, v.r, kept.r),
    }
}

// A word of the block takes the place of the kept one of its letter alone.
fn kept_with(d: Distance, v: Values, kept: Kept) -> Kept
    ensures { result ≡ kept_with d v kept }
{
    Kept {
        initial: kept.initial,
        z: crate::or_else(v.z, kept.z),
        r: crate::or_else(v.r, kept.r),
        dwell: crate::or_else(v.p, kept.dwell),
        stands: stands_with(v, kept.stands),
        under: under_with(d, v, kept.under),
    }
}

// What is kept after a block, by the motion that is its code. A motion that is no cycle keeps nothing.
pub fn kept_under(motion: Motion, s: State, d: Distance, v: Values) -> Kept
    ensures { result ≡ kept_under motion s d v }
{
    let Motion::Drilling(cycle) = motion else {
        return none_kept(s.at.z);
    };
    kept_with(d, v, kept_before(cycle, s.modes.motion, s.at.z, s.kept))
}

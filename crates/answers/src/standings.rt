// Where a run stands, on one line: the point in machine units, the code that is on in each of the groups A to F, the feed, the
// speed, the spindle, what a cycle keeps, and the next block.
use codes::Motion;
use refusals::Place;
use settings::{Kept, State};
use std::io::{Print, Result};

pub fn show_state(rt: &impl Print, state: State, next: Place) -> Result<()> {
    let at = state.at;
    let modes = state.modes;
    print!(rt; "at X {} Y {} Z {}, modes {modes}", at.x, at.y, at.z)?;
    let spindle = if state.turning { "on" } else { "off" };
    print!(rt;
        ", feed {}, speed {}, spindle {spindle}",
        state.feed, state.speed
    )?;
    if matches!(modes.motion, Motion::Drilling(_)) {
        show_kept(rt, state.kept)?;
    }
    println!(rt; ", next block {} at byte {}", next.block, next.byte)
}

// While a cycle is on: its initial level in machine units, and the words that it keeps, in units and milliseconds as they were written.
fn show_kept(rt: &impl Print, kept: Kept) -> Result<()> {
    print!(rt; ", initial level {}", kept.initial)?;
    if kept.stands.z {
        print!(rt; ", kept Z {} {}", kept.z, kept.under.z)?;
    }
    if kept.stands.r {
        print!(rt; ", kept R {} {}", kept.r, kept.under.r)?;
    }
    if kept.stands.dwell {
        print!(rt; ", kept P {}", kept.dwell)?;
    }
    Ok(())
}

// The tests of a block in the order of refusals, from 3 on to that of a cycle. Those of its call, 5 and 6, come where it is followed.
ghost use Rattle.std.specs.Prelude.{◌≡◌};
ghost use Rattle.blocks.specs.Exec.{lacks_centre, lacks_parameter, drills, cannot_drill, working};

use blocks::Said;
use codes::{Motion, Plane};
use letters::BlockCode;
use settings::State;
use words::Values;

fn lacks_centre(motion: Motion, v: Values) -> bool
    ensures { result ≡ lacks_centre motion v }
{
    match motion {
        Motion::G02 | Motion::G03 => work::end_stands(v) & !work::centre_given(v),
        _ => false,
    }
}

pub fn lacks_parameter(code: BlockCode, v: Values) -> bool
    ensures { result ≡ lacks_parameter code v }
{
    match code {
        BlockCode::Calling | BlockCode::Dwelling => v.p.is_none(),
        BlockCode::Returning => false,
        BlockCode::Moving(motion) => lacks_centre(motion, v),
    }
}

// Whether a cycle is done in the block.
fn drills(code: BlockCode, named: bool, v: Values) -> bool
    ensures { result ≡ drills code named v }
{
    matches!(code, BlockCode::Moving(Motion::Drilling(_))) & work::cycle_done(named, v)
}

// A cycle needs G17 and a turning spindle, whose M03 may be the block's own.
pub fn cannot_drill(b: Said, turning: bool) -> bool
    ensures { (s : State) → (working s b).turning ≡ turning → result ≡ cannot_drill s b }
{
    let code = b.code;
    let modes = b.modes;
    let plane = modes.plane;
    drills(code, b.named, b.values) & ((plane != Plane::G17) | !turning)
}

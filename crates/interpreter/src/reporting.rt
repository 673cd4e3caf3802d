// What the main program's ending tells: the answer, and the place of the next block.
ghost use Rattle.std.specs.Prelude.{◌≡◌};
ghost use Rattle.runs.specs.{Walk.Going, Run.answer_by};
ghost use Rattle.interpreter.specs.Progressing.{how_by, next_by};

use crate::How;
use refusals::{Answer, Place};

// The answer that the main program's ending gives.
pub fn answer_by(how: How, place: Place, count: usize) -> Answer
    ensures { (g : Going) → result ≡ answer_by (how_by how place g) count }
{
    match how {
        How::Ended => Answer::Done(count),
        How::Returned => Answer::Done(count),
        How::Unfinished => Answer::Unfinished(count),
        How::Refused(refusal) => Answer::Refused(refusal, place, count),
    }
}

// The place of the next block, where the run is not finished.
pub fn next_by(how: How, place: Place) -> Place
    ensures { result ≡ next_by how place }
{
    match how {
        How::Unfinished => place,
        _ => Place { block: 0, byte: 0 },
    }
}

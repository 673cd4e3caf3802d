// What the words of a block say: read, and then judged.
ghost use Rattle.std.specs.Prelude.{◌≤◌};
ghost use Rattle.terms.specs.Common.{length};
ghost use Rattle.setup.specs.Fair.{Fair};
ghost use Rattle.words.specs.Packed.{words_in};
ghost use Rattle.letters.specs.Judging.{Stored};
ghost use Rattle.blocks.specs.Reach.{Reachable};
ghost use Rattle.execution.specs.BlockReading.{JudgedAs, BlockReadAs};

use crate::BlockRead;
use blocks::Said;
use letters::{Speeds, Unfit};
use reading::Reading;
use refusals::{Blame, Refusal};
use settings::State;
use setup::Bed;

// The block's words have been read, and all may stand: their values, 2 and 1, and what the block says.
// The words in two lent arrays were measured, together with two other steps (docs/SPEED.md, "What each step was worth").
fn judge_words(
    bed: Bed,
    read: Reading,
    words: &[u64; 13],
    places: &[usize; 13],
) -> Result<BlockRead, Blame>
    requires { Stored (words_in words.now places.now) read.count }
    ensures { JudgedAs bed (words_in words.now places.now) read result }
{
    let seen = read.seen;
    let modes = seen.modes;
    let misc = seen.misc;
    let groups = seen.groups;
    let motion = modes.motion;
    let code = letters::block_code(misc, groups[7], motion);
    let lowest = bed.lowest;
    let highest = bed.highest;
    let speeds = Speeds { lowest, highest };
    let stood = seen.letters;
    let plane = modes.plane;
    let centred = letters::has_centre(code, plane, stood[8], stood[9], stood[10]);
    match letters::judge(speeds, modes, code, centred, words, places, read.count) {
        Err(Unfit::Unused(byte)) => Err(Blame {
            refusal: Refusal::AddressUndefined,
            byte,
        }),
        Err(Unfit::Bad(byte)) => Err(Blame {
            refusal: Refusal::BadParameter,
            byte,
        }),
        Ok(values) => {
            let said = Said {
                modes,
                code,
                misc,
                named: groups[1],
                values,
            };
            Ok(BlockRead {
                said,
                end: read.end,
            })
        }
    }
}

// The words of the block that begin at a place of the data. The words are kept in two arrays of this function, lent to the reader and
// to the judgement, so that nothing large is copied.
pub fn read_block(
    s: &[u8],
    from: usize,
    left: usize,
    bed: Bed,
    state: State,
) -> Result<BlockRead, Blame>
    requires from_in_bounds { from ≤ length s.now }
    requires fair { Fair bed }
    requires reachable { Reachable bed state }
    ensures { BlockReadAs bed left state s.now from result }
{
    let mut words = [0u64; 13];
    let mut places = [0usize; 13];
    let read = reading::read_words(s, from, left == 4, state.modes, &mut words, &mut places)?;
    judge_words(bed, read, &words, &places)
}

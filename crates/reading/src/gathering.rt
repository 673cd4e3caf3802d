// Reading the words of a block, each byte once.
ghost use Rattle.std.specs.Prelude.{◌≡◌, ◌≤◌};
ghost use Rattle.terms.specs.Common.{length};
ghost use Rattle.words.specs.Packed.{words_in};
ghost use Rattle.reading.specs.Whole.{IsRead};

use crate::{Item, Reading, Role, Seen};
use codes::Misc;
use refusals::{Blame, Refusal};
use settings::Modes;

// The words of the block's text from a place on, under the modes that held before, or what is to blame, by 15 or 4. After the
// first word that may not stand the rest is only looked through for what cannot be read. The words with a value go to the arrays, each packed in one number
// with its place beside it. What else is kept stands in variables of its own and is put together at the end, so that nothing
// is copied from word to word.
// By itself, and not in the middle of the run's loop: there the compiler has too few registers left for these variables, and writes
// most of them to memory and back at each byte (docs/SPEED.md, "In today's forms").
#[inline(never)]
pub fn read_words(
    s: &[u8],
    from: usize,
    main: bool,
    before: Modes,
    words: &mut [u64; 13],
    places: &mut [usize; 13],
) -> Result<Reading, Blame>
    requires from_in_bounds { from ≤ length s.now }
    requires words_len { (length words.old ≡ 13) × (length places.old ≡ 13) }
    ensures { IsRead main before s.now from (words_in words.new places.new) result }
{
    let mut count: usize = 0;
    let mut letters = [false; 26];
    let mut groups = [false; 8];
    let mut misc = Misc::Other;
    let mut modes = before;
    let mut refused: Option<Blame> = None;
    let mut i = from;
    while !lines::text_ends(s, i) {
        let item = match crate::item_at(s, i) {
            Ok(item) => item,
            Err(refusal) => return Err(Blame { refusal, byte: i }),
        };
        match item {
            Item::Gap(next) => {
                i = next;
            }
            Item::Says(w, next) => {
                i = next;
                if refused.is_some() {
                    continue;
                }
                let k = crate::letter_place(w.letter);
                match crate::role_of(main, letters[k], letters[6], groups, misc, w) {
                    Role::MayNot => {
                        refused = Some(Blame {
                            refusal: Refusal::CannotExecute,
                            byte: w.at,
                        });
                    }
                    Role::Code(c) => {
                        let g = codes::group_of(c) as usize;
                        letters[6] = true;
                        groups[g] = true;
                        modes = settings::switched(modes, c);
                    }
                    Role::Misc(m) => {
                        letters[12] = true;
                        misc = m;
                    }
                    Role::Value => {
                        letters[k] = true;
                        words[count] = words::pack(w);
                        places[count] = w.at;
                        count += 1;
                    }
                }
            }
        }
    }
    if let Some(blame) = refused {
        return Err(blame);
    }
    let seen = Seen {
        letters,
        groups,
        misc,
        modes,
    };
    Ok(Reading {
        seen,
        count,
        end: i,
    })
}

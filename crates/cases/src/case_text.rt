// A case as it is written. Its first line begins with three words: the count of blocks to run, or no count, as `-1`, for the
// whole run; the room for records; and the data's length in bytes. What else this line has is not read. Then come a line with
// the setup's 35 numbers, the data's bytes as they are, and a line's end.
ghost use Rattle.std.specs.Prelude.{◌≡◌, ◌+◌, ◌≤◌};
ghost use Rattle.terms.specs.Common.{min, length, drop};
ghost use Rattle.lines.specs.Blocks.{begins_with};
ghost use Rattle.cases.specs.Cases.{count_at, size_of, case_at};

use crate::{Case, Counted};

// The next word of a text as a count.
fn count_at(s: &[u8], at: usize) -> Counted
    ensures { result ≡ count_at s.now at }
{
    let from = texts::next_word(s, at);
    let next = texts::word_end(s, from);
    if from == next {
        return Counted { count: None, next };
    }
    Counted {
        count: texts::digits_at(s, from, next),
        next,
    }
}

// A word that is no count is more than any room or data has.
fn size_of(count: Option<u64>) -> u64
    ensures { result ≡ size_of count }
{
    count.unwrap_or(u64::MAX)
}

// The place after so many bytes, or the input's end where there are fewer.
fn end_after(input: &[u8], from: usize, size: u64) -> usize
    requires { from ≤ length input.now }
    ensures { result ≡ min (from + size) (length input.now) }
{
    if (input.len() - from) as u64 <= size {
        return input.len();
    }
    from + size as usize
}

// Whether a line's end stands at a place.
fn is_line_end(input: &[u8], at: usize) -> bool
    ensures { result ≡ begins_with 10 (drop at input.now) }
{
    input.get(at) == Some(&b'\n')
}

// The case that begins at a place, where one does and its records are to have so much room at most.
pub fn case_at(input: &[u8], at: usize, most: usize) -> Option<Case>
    requires { at ≤ length input.now }
    ensures { result ≡ case_at input.now at most }
{
    let line = lines::next_block(input, at);
    let from = lines::next_block(input, line);
    let words = &input[at..line];
    let first = count_at(words, 0);
    let second = count_at(words, first.next);
    let third = count_at(words, second.next);
    let room = size_of(second.count);
    let end = end_after(input, from, size_of(third.count));
    let Ok(setup) = setups::read_setup(&input[line..from]) else {
        return None;
    };
    if (room <= most as u64) & is_line_end(input, end) {
        Some(Case {
            setup,
            blocks: first.count,
            room,
            from,
            end,
        })
    } else {
        None
    }
}

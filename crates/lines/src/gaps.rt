// Blanks and comments, which may stand between words and after an opening's number.
ghost use Rattle.std.specs.Prelude.{◌≡◌, ◌+◌, ◌≤◌, ◌<◌};
ghost use Rattle.terms.specs.Common.{length, drop};
ghost use Rattle.lines.specs.{Blocks.text_from, Gaps.only_gaps, Closing.comment_at};

// The place after the closing parenthesis of a comment whose bytes begin at a place, or none in the block. A CR before the
// block's LF is passed like any other byte, since the LF after it ends the search all the same.
pub fn comment_end(s: &[u8], at: usize) -> Option<usize>
    requires { at ≤ length s.now }
    ensures { result ≡ comment_at at (text_from (drop at s.now)) }
{
    for i in at..s.len() {
        match s[i] {
            b')' => return Some(i + 1),
            b'\n' => return None,
            _ => {}
        }
    }
    None
}

// Whether only blanks and comments stand from a place to the end of its block.
pub fn only_gaps(s: &[u8], at: usize) -> bool
    requires { at ≤ length s.now }
    ensures { result ≡ only_gaps (text_from (drop at s.now)) }
{
    let mut i = at;
    while !crate::text_ends(s, i) {
        match s[i] {
            b' ' | b'\t' => i += 1,
            b'(' => {
                let Some(next) = comment_end(s, i + 1) else {
                    return false;
                };
                i = next;
            }
            _ => return false,
        }
    }
    true
}

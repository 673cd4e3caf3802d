// The file beside a path, to which bytes go until all of them are there: its name, six characters of which a number takes.
ghost use Rattle.std.specs.Prelude.{◌≡◌, ◌+◌, ◌≤◌};
ghost use Rattle.terms.specs.Common.{length};
ghost use Rattle.files.specs.Parts.{Puts, Names, Numbered, figures, figure};

// The path with `.part-XXXXXX` after it, and how many bytes that are; none where there is no room for it and a 0.
pub fn part_name(path: &[u8], name: &mut [u8]) -> Option<usize>
    ensures { Names path.now name.old name.new result }
{
    if name.len().saturating_sub(path.len()) <= 12 {
        return None;
    }
    let n = put(name, 0, path);
    Some(put(name, n, b".part-XXXXXX"))
}

// A text written over a buffer from a place on; answers the place after it.
pub fn put(name: &mut [u8], at: usize, text: &[u8]) -> usize
    requires { at + length text.now ≤ length name.old }
    ensures { Puts name.old at text.now name.new result }
{
    let next = at + text.len();
    name[at..next].copy_from_slice(text);
    next
}

// The six X's at a name's end replaced by the six figures of a number.
pub fn put_number(name: &mut [u8], number: u32)
    ensures { Numbered name.old number name.new }
{
    if name.len() < 6 {
        return;
    }
    let at = name.len() - 6;
    let text = figures(number);
    put(name, at, &text);
}

fn figures(number: u32) -> [u8; 6]
    ensures { result ≡ figures number }
{
    [
        figure(number / 100_000),
        figure(number / 10_000),
        figure(number / 1_000),
        figure(number / 100),
        figure(number / 10),
        figure(number),
    ]
}

fn figure(number: u32) -> u8
    ensures { result ≡ figure number }
{
    b'0' + (number % 10) as u8
}

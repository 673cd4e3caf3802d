// The options of a run, and whether it names a list. Where one is wrong, a line says so.
ghost use Rattle.std.specs.Prelude.{◌≡◌, ◌+◌, ◌≤◌, ◌<◌};
ghost use Rattle.terms.specs.Common.{None};
ghost use Rattle.texts.specs.Figures.{digits_in};
ghost use Rattle.commands.specs.Options.{no_options, with_blocks, with_room, with_partial, with_option, with_next, with_no_more, is_listed, first_options, room_of, options_of};
ghost use Rattle.commands.specs.Words.{word_of};

use crate::{is, word};
use files::{LIST_ROOM, complain};
use texts::is_word;

// Whether a list is named, how many blocks are run where not all are, how many bytes the records may take where not as many as
// a list has, and whether a refused run's are written. The words from the next one on are not read yet.
#[derive(Clone, Copy)]
pub struct Options {
    pub listed: bool,
    pub blocks: Option<u64>,
    pub room: Option<usize>,
    pub partial: bool,
    pub next: usize,
}

impl Options {
    pub fn room(self) -> usize
        ensures { result ≡ room_of self }
    {
        self.room.unwrap_or(LIST_ROOM)
    }
}

fn no_options(listed: bool, next: usize) -> Options
    ensures { result ≡ no_options listed next }
{
    Options {
        listed,
        blocks: None,
        room: None,
        partial: false,
        next,
    }
}

// A line says what is wrong with a word, and there are no options.
fn wrong(err: i32, name: &[u8], what: &[u8]) -> Option<Options>
    ensures { result ≡ None }
{
    complain(err, name, what);
    None
}

fn given_twice(err: i32, name: &[u8]) -> Option<Options>
    ensures { result ≡ None }
{
    wrong(err, name, b"is given twice")
}

fn no_room(err: i32) -> Option<Options>
    ensures { result ≡ None }
{
    wrong(
        err,
        b"--room",
        b"wants a number after it, of bytes, 1048576 at most",
    )
}

// The options of a command of so many words, or none where a line says what is wrong with one.
pub fn options_of(line: &[u8], count: usize, err: i32) -> Option<Options>
    ensures { result ≡ options_of line.now count }
{
    let none = first_options(is_listed(line, count));
    let one = with_next(line, count, none, err)?;
    let two = with_next(line, count, one, err)?;
    let three = with_next(line, count, two, err)?;
    with_no_more(line, count, three, err)
}

// Whether the fourth word names a list. A list whose name begins like an option is told by its folder, as in `./--list`.
fn is_listed(line: &[u8], count: usize) -> bool
    ensures { result ≡ is_listed line.now count }
{
    if count <= 3 {
        return false;
    }
    let list = word(line, 3);
    if list.len() < 2 {
        return true;
    }
    !is_word(list, 0, 2, b"--")
}

fn first_options(listed: bool) -> Options
    ensures { result ≡ first_options listed }
{
    if listed {
        return no_options(true, 4);
    }
    no_options(false, 3)
}

// The options with the next one, where a word is left. Three options take six words at most after the first four, and so the
// bound: an invariant of the type would have to grow with each.
fn with_next(line: &[u8], count: usize, options: Options, err: i32) -> Option<Options>
    requires { options.next ≤ 8 }
    ensures { result ≡ with_next line.now count options }
{
    let k = options.next;
    if count <= k {
        return Some(options);
    }
    with_option(word(line, k), word(line, k + 1), options, err)
}

fn with_no_more(line: &[u8], count: usize, options: Options, err: i32) -> Option<Options>
    ensures { result ≡ with_no_more count options }
{
    let k = options.next;
    if count <= k {
        return Some(options);
    }
    wrong(err, word(line, k), b"is too much: nothing may stand here")
}

// The option of a name, and the word after it.
fn with_option(name: &[u8], number: &[u8], options: Options, err: i32) -> Option<Options>
    requires { options.next ≤ 8 }
    ensures { result ≡ with_option name.now number.now options }
{
    if is(name, b"--blocks") {
        return with_blocks(number, options, err);
    }
    if is(name, b"--room") {
        return with_room(number, options, err);
    }
    if is(name, b"--partial") {
        return with_partial(options, err);
    }
    wrong(
        err,
        name,
        b"no such option; they are --blocks, --room and --partial",
    )
}

fn with_blocks(number: &[u8], options: Options, err: i32) -> Option<Options>
    requires { options.next ≤ 8 }
    ensures { result ≡ with_blocks options (digits_in number.now) }
{
    if options.blocks.is_some() {
        return given_twice(err, b"--blocks");
    }
    let Some(n) = texts::digits_at(number, 0, number.len()) else {
        return wrong(
            err,
            b"--blocks",
            b"wants a number after it, of 19 digits at most",
        );
    };
    Some(Options {
        blocks: Some(n),
        next: options.next + 2,
        ..options
    })
}

fn with_room(number: &[u8], options: Options, err: i32) -> Option<Options>
    requires { options.next ≤ 8 }
    ensures { result ≡ with_room options (digits_in number.now) }
{
    if options.room.is_some() {
        return given_twice(err, b"--room");
    }
    let Some(n) = texts::digits_at(number, 0, number.len()) else {
        return no_room(err);
    };
    if 1048576 < n {
        return no_room(err);
    }
    Some(Options {
        room: Some(n as usize),
        next: options.next + 2,
        ..options
    })
}

fn with_partial(options: Options, err: i32) -> Option<Options>
    requires { options.next ≤ 8 }
    ensures { result ≡ with_partial options }
{
    if options.partial {
        return given_twice(err, b"--partial");
    }
    Some(Options {
        partial: true,
        next: options.next + 1,
        ..options
    })
}

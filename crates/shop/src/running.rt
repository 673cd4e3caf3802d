// The run of a data set under a setup, from files to a file.

ghost use Rattle.std.specs.Prelude.{◌≤◌};
ghost use Rattle.commands.specs.Options.{room_of};

use crate::setup_files::setup_in;
use answers::{show_answer, show_standing};
use commands::{Options, options_of, word};
use files::{LIST_ROOM, STDOUT_FILENO, Spot, complain, room, show_text, spot_for};
use list_files::{is_written, make_list};
use runs::Report;
use setup::Setup;
use std::io::{ErrorKind, Print, Result};
use std::rt::Files;

pub fn run(rt: &(impl Files + Print), line: &[u8], count: usize, err: i32) -> Result<()> {
    if count < 3 {
        complain(
            err,
            b"run",
            b"wants SETUP DATA [LIST] [--blocks N] [--room R] [--partial]",
        );
        return Ok(());
    }
    let Some(options) = options_of(line, count, err) else {
        return Ok(());
    };
    let Some(spot) = spot_of(rt, line, options, err) else {
        return Ok(());
    };
    run_files(rt, line, options, spot, err)
}

// Where the list goes. A run without one writes nothing, which it may.
fn spot_of(rt: &impl Files, line: &[u8], options: Options, err: i32) -> Option<Spot> {
    if options.listed {
        return spot_for(rt, word(line, 3), word(line, 1), word(line, 2), err);
    }
    Some(Spot { mode: None })
}

// The buffer holds one byte more than data may have, so that longer data is refused and not cut.
fn run_files(
    rt: &(impl Files + Print),
    line: &[u8],
    options: Options,
    spot: Spot,
    err: i32,
) -> Result<()>
    requires { room_of options ≤ 1048576 }
{
    let Some(setup) = setup_in(rt, word(line, 1), err) else {
        return Ok(());
    };
    let mut data = io::large_buffer();
    let Some(n) = files::read_start(rt, word(line, 2), &mut data, err) else {
        return Ok(());
    };
    run_data(rt, setup, &data[..n], word(line, 3), options, spot, err)
}

fn run_data(
    rt: &(impl Files + Print),
    setup: Setup,
    data: &[u8],
    path: &[u8],
    options: Options,
    spot: Spot,
    err: i32,
) -> Result<()>
    requires { room_of options ≤ 1048576 }
{
    let mut list = room::<LIST_ROOM>();
    let made = make_list(setup, data, &mut list, options);
    let answer = made.answer;
    let end = made.end;
    if !is_written(answer, options) {
        show_made(rt, data, made)?;
        return show_kept(rt, path, options.listed);
    }
    if !files::write_whole(rt, path, &list[..end], spot, err) {
        return Ok(());
    }
    show_made(rt, data, made)
}

fn show_made(rt: &impl Print, data: &[u8], made: Report) -> Result<()> {
    let answer = made.answer;
    let standing = made.standing;
    let state = standing.state;
    let next = standing.next;
    show_answer(rt, data, answer)?;
    show_standing(rt, answer, state, next)
}

// A refused run says what became of the list that it was to write.
fn show_kept(rt: &impl Print, path: &[u8], listed: bool) -> Result<()> {
    if !listed {
        return Ok(());
    }
    // A name need not be text, so its bytes go out by the descriptor, whose answer is a bool.
    if !show_text(STDOUT_FILENO, path, 255) {
        return Err(ErrorKind::Other.into());
    }
    println!(rt; " is as it was; --partial writes the records before the refused block")
}

// The commands of the program for the shops.
#![tactic(auto)]

mod plotting;
mod running;
mod setup_files;

ghost use Rattle.std.specs.Prelude.{◌≡◌};
ghost use Rattle.shop.specs.Asking.{asked_by};

use answers::{Unshown, show_list};
use commands::{count_of, is, word};
use files::{LIST_ROOM, complain, complain_record, complain_why};
use plotting::plot;
use running::run;
use setup_files::setup_in;
use std::io::{Print, Result};
use std::rt::Files;

// What the first word asks for.
#[derive(Clone, Copy, PartialEq, Eq)]
pub enum Asked {
    Run,
    Show,
    Plot,
    Check,
    Other,
}

// Does what a command asks. Each of its words ends in a byte 0. What comes of it goes to standard output, and one line about
// a wrong use to the descriptor, and then nothing is written. What standard output does not take is told there too.
pub fn do_command<R: Files + Print>(rt: &R, line: &[u8], err: i32) {
    if print_command(rt, line, err).is_err() {
        complain_unprinted(rt, err);
    }
}

// The reason is asked for by a line's end, which also ends a line that broke off.
fn complain_unprinted(rt: &impl Print, err: i32) {
    match rt.print("\n") {
        Ok(()) => complain(err, b"standard output", b"cannot be written"),
        Err(why) => complain_why(err, b"standard output", b"cannot be written", why),
    }
}

// After a write to standard output that fails nothing more is tried.
fn print_command(rt: &(impl Files + Print), line: &[u8], err: i32) -> Result<()> {
    let count = count_of(line);
    if count == 0 {
        return help(rt);
    }
    let asked = asked_by(word(line, 0));
    match asked {
        Asked::Run => run(rt, line, count, err),
        Asked::Show => show(rt, line, count, err),
        Asked::Plot => {
            plot(rt, line, count, err);
            Ok(())
        }
        Asked::Check => check(rt, line, count, err),
        Asked::Other => {
            complain(
                err,
                word(line, 0),
                b"no such command; iswenaid alone tells them",
            );
            Ok(())
        }
    }
}

fn help(rt: &impl Print) -> Result<()> {
    print!(rt;
        "iswenaid run SETUP DATA [LIST] [--blocks N] [--room R] [--partial]\n    runs the data and writes its records to the file LIST; without LIST it only answers;\n    N: only the first N blocks; R: at most R bytes of records, 1048576 where it is not given;\n    a refused run leaves LIST as it was, and with --partial it writes the records before\n    the refused block\niswenaid show LIST\n    prints the records of a list\niswenaid plot LIST SETUP PICTURE\n    draws a list into the file PICTURE, as SVG\niswenaid check SETUP\n    says whether a setup keeps its limits, or which it breaks\n"
    )
}

// One test a word: a table of names would have to be searched by a loop, for four of them.
fn asked_by(given: &[u8]) -> Asked
    ensures { result ≡ asked_by given.now }
{
    if is(given, b"run") {
        return Asked::Run;
    }
    if is(given, b"show") {
        return Asked::Show;
    }
    if is(given, b"plot") {
        return Asked::Plot;
    }
    if is(given, b"check") {
        return Asked::Check;
    }
    Asked::Other
}

// The records of a list that a file holds.
fn show(rt: &(impl Files + Print), line: &[u8], count: usize, err: i32) -> Result<()> {
    if count != 2 {
        complain(err, b"show", b"wants LIST");
        return Ok(());
    }
    let mut list = files::room::<LIST_ROOM>();
    let Some(n) = files::read_whole(rt, word(line, 1), &mut list, err) else {
        return Ok(());
    };
    match show_list(rt, &list[..n]) {
        Ok(()) => Ok(()),
        Err(Unshown::Faulty(place)) => {
            complain_record(err, word(line, 1), place);
            Ok(())
        }
        Err(Unshown::Unwritten(why)) => Err(why),
    }
}

// Whether the setup that a file holds keeps its limits.
fn check(rt: &(impl Files + Print), line: &[u8], count: usize, err: i32) -> Result<()> {
    if count != 2 {
        complain(err, b"check", b"wants SETUP");
        return Ok(());
    }
    let Some(setup) = setup_in(rt, word(line, 1), err) else {
        return Ok(());
    };
    match setup::fault_of(setup) {
        None => println!(rt; "valid"),
        Some(fault) => println!(rt; "breaks a limit: {fault}"),
    }
}

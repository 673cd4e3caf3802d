// A list drawn as a picture, from files to a file.
use crate::setup_files::setup_in;
use commands::word;
use drawing::Undrawn;
use files::{LIST_ROOM, PICTURE_ROOM, Spot, complain, complain_record, room, spot_for};
use setup::Setup;
use std::rt::Files;

pub fn plot(rt: &impl Files, line: &[u8], count: usize, err: i32) {
    if count != 4 {
        complain(err, b"plot", b"wants LIST SETUP PICTURE");
        return;
    }
    let Some(spot) = spot_for(rt, word(line, 3), word(line, 1), word(line, 2), err) else {
        return;
    };
    if let Some(setup) = setup_in(rt, word(line, 2), err) {
        plot_file(rt, setup, line, spot, err);
    }
}

fn plot_file(rt: &impl Files, setup: Setup, line: &[u8], spot: Spot, err: i32) {
    let mut list = room::<LIST_ROOM>();
    if let Some(n) = files::read_whole(rt, word(line, 1), &mut list, err) {
        plot_list(rt, setup, &list[..n], line, spot, err);
    }
}

fn plot_list(rt: &impl Files, setup: Setup, list: &[u8], line: &[u8], spot: Spot, err: i32) {
    let mut picture = room::<PICTURE_ROOM>();
    match drawing::draw(list, setup, &mut picture) {
        Ok(n) => {
            files::write_whole(rt, word(line, 3), &picture[..n], spot, err);
        }
        Err(Undrawn::NoRoom) => complain(
            err,
            word(line, 1),
            b"is too long to draw: the picture would take more than 4194303 bytes",
        ),
        Err(Undrawn::Faulty(place)) => complain_record(err, word(line, 1), place),
        Err(Undrawn::BadSetup) => complain(
            err,
            word(line, 2),
            b"breaks a limit; iswenaid check tells which",
        ),
    }
}

// Setups in files: one is read, or a line says what is wrong with it.
ghost use Rattle.std.specs.Prelude.{◌≡◌};
ghost use Rattle.setups.specs.Setups.{setup_in};
ghost use Rattle.shop.specs.Knowing.{known_by, line_of};

use files::begin_line;
use setup::Setup;
use setups::Misread;
use std::rt::Files;
use texts::Wrong;

// The setup in a file. If it gives none, a line has said what is wrong.
pub fn setup_in(rt: &impl Files, path: &[u8], err: i32) -> Option<Setup> {
    let mut text = io::large_buffer();
    let Some(n) = files::read_whole(rt, path, &mut text, err) else {
        return known_from(path, b"", false, err);
    };
    known_from(path, &text[..n], true, err)
}

// The setup that a file's text gives, where all of it was read. If it gives none, a line says what is wrong with it.
fn known_from(path: &[u8], text: &[u8], whole: bool, err: i32) -> Option<Setup>
    ensures { result ≡ known_by whole (setup_in text.now) }
{
    if !whole {
        return None;
    }
    match setups::read_setup(text) {
        Ok(setup) => Some(setup),
        Err(misread) => {
            show_misread(path, text, misread, err);
            None
        }
    }
}

// What is wrong with a text, and in which line of it.
fn show_misread(path: &[u8], text: &[u8], misread: Misread, err: i32) {
    begin_line(err, path);
    io::write_all(err, b"line ");
    io::print_decimal(err, line_of(text, misread.at));
    io::write_all(err, words_of(misread.wrong));
}

// The number of the line that a place lies in, the first being 1.
fn line_of(text: &[u8], at: usize) -> u64
    ensures { result ≡ line_of text.now at }
{
    let mut number: u64 = 1;
    for i in 0..at.min(text.len()) {
        if text[i] == b'\n' {
            number += 1;
        }
    }
    number
}

fn words_of(wrong: Wrong) -> &'static [u8] {
    match wrong {
        Wrong::NoNumber => b": a whole number is wanted here, of 19 digits at most\n",
        Wrong::TooLarge => b": the number is too large\n",
        Wrong::OtherName => b": another name is wanted here\n",
        Wrong::TooFew => b": the setup ends too early\n",
        Wrong::TooMuch => b": the setup is over before this\n",
    }
}

// The system asked about a name.
ghost use Rattle.terms.specs.Common.{length};
ghost use Rattle.std.specs.Prelude.{IfOk, IsOk, false, ◌≡◌, ◌≢◌, ◌↔◌, ◌/◌, ◌%◌};
ghost use Rattle.files.specs.Names.{named_of, NamedBy, Spelt};

use crate::system::{EILSEQ, ENAMETOOLONG, ENOENT, PATH_MAX, REGULAR, number_by};
use crate::{Filed, Named, Unfound};
use std::fs::{Metadata, OpenOptions};
use std::io::Error;
use std::os::unix::fs::MetadataExt;
use std::rt::Files;

// What the system says of a name, and of a file that is to be written whether it may be. A name that is too long leads nowhere.
pub fn named_by(rt: &impl Files, path: &[u8], to_be_written: bool) -> Named
    ensures { NamedBy (length path.now) result }
{
    if PATH_MAX <= path.len() {
        return named_of(Err(Unfound::Failed(ENAMETOOLONG)), false, false);
    }
    match spelt(path) {
        Ok(name) => asked_of(rt, name, to_be_written),
        Err(why) => named_of(Err(Unfound::Failed(number_by(why))), false, false),
    }
}

fn asked_of(rt: &impl Files, path: &str, to_be_written: bool) -> Named {
    let told = told_of(rt.metadata(path));
    let link = is_link(rt, path);
    let locked = match told {
        Ok(file) => to_be_written && !link && is_locked(rt, path, file.mode),
        Err(_) => false,
    };
    named_of(told, link, locked)
}

// What the system said of a file, told of its name.
fn named_of(file: Result<Filed, Unfound>, link: bool, locked: bool) -> Named
    ensures { result ≡ named_of file link locked }
{
    Named { file, link, locked }
}

// The system's answer to the question which file a name leads to, links followed.
fn told_of(answer: std::io::Result<Metadata>) -> Result<Filed, Unfound>
    ensures { IsOk result ↔ IsOk answer }
{
    match answer {
        Ok(file) => Ok(filed_of(file)),
        Err(why) => Err(unfound_by(number_by(why))),
    }
}

fn filed_of(file: Metadata) -> Filed {
    Filed {
        device: file.dev(),
        number: file.ino(),
        mode: file.mode(),
    }
}

fn unfound_by(error: i32) -> Unfound {
    if error == ENOENT {
        Unfound::Missing
    } else {
        Unfound::Failed(error)
    }
}

// Whether this user may not write a file: a regular one is opened to be written, and nothing is written to it. Nothing else
// is opened, since that may wait or do something.
fn is_locked(rt: &impl Files, path: &str, mode: u32) -> bool
    ensures { mode / 4096 % 16 ≢ 8 → result ≡ false }
{
    if mode / 4096 % 16 != REGULAR {
        return false;
    }
    OpenOptions::new().write(true).open(rt, path).is_err()
}

// Whether a name itself is a symbolic link.
fn is_link(rt: &impl Files, path: &str) -> bool {
    rt.symlink_metadata(path)
        .is_ok_and(|file| file.is_symlink())
}

// A name as the system is handed it: all of its bytes, as text.
pub fn spelt(path: &[u8]) -> std::io::Result<&str>
    ensures { IfOk result (λ text. Spelt path.now text.now) }
{
    str::from_utf8(path).map_err(|_| Error::from_raw_os_error(EILSEQ))
}

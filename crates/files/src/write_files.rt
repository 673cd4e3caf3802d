// A file written whole or not at all: the bytes go to a new file beside it, which takes its name once all of them have reached
// the device. What stood there before stays until then.
use crate::messages::{complain, complain_why};
use crate::part_names::{part_name, put_number};
use crate::placing::Spot;
use crate::status::spelt;
use crate::system::EEXIST;
use std::fs::{OpenFile, OpenOptions, Permissions};
use std::io::{Error, Result, Write};
use std::os::unix::fs::PermissionsExt;
use std::rt::Files;

// Answers whether the bytes are there. Where not, a line says why, and nothing new stands at the path or beside it.
pub fn write_whole(rt: &impl Files, path: &[u8], bytes: &[u8], spot: Spot, err: i32) -> bool {
    let mut name = io::buffer();
    let Some(n) = part_name(path, &mut name) else {
        complain(err, path, b"cannot be written: the name is too long");
        return false;
    };
    match write_by(rt, &mut name[..n], path, bytes, spot) {
        Ok(()) => true,
        Err(why) => {
            complain_why(err, path, b"cannot be written", why);
            false
        }
    }
}

// The bytes by way of a new file, which is removed where not all goes well.
fn write_by(rt: &impl Files, part: &mut [u8], path: &[u8], bytes: &[u8], spot: Spot) -> Result<()> {
    let file = create_own(rt, part)?;
    let placed = fill_part(file, bytes, spot).and_then(|()| rename(rt, part, path));
    if placed.is_err() {
        let _ = remove(rt, part);
    }
    placed
}

// A new file under a name of its own, with the rights that this user's files have: a number takes the place of the X's, the
// first that is free.
fn create_own<R: Files>(rt: &R, part: &mut [u8]) -> Result<R::File> {
    for number in 0..1_000_000 {
        put_number(part, number);
        match create_new(rt, part) {
            Ok(file) => return Ok(file),
            Err(why) => {
                if why.raw_os_error() != Some(EEXIST) {
                    return Err(why);
                }
            }
        }
    }
    Err(Error::from_raw_os_error(EEXIST))
}

fn create_new<R: Files>(rt: &R, name: &[u8]) -> Result<R::File> {
    OpenOptions::new()
        .write(true)
        .create_new(true)
        .open(rt, spelt(name)?)
}

// All bytes, and the rights of the file that is replaced, brought to the device. The new file is closed.
fn fill_part<F: Write + OpenFile + Drop>(mut file: F, bytes: &[u8], spot: Spot) -> Result<()> {
    file.write_all(bytes)?;
    if let Some(mode) = spot.mode {
        file.set_permissions(Permissions::from_mode(mode))?;
    }
    file.sync_all()
}

fn rename(rt: &impl Files, part: &[u8], path: &[u8]) -> Result<()> {
    rt.rename(spelt(part)?, spelt(path)?)
}

fn remove(rt: &impl Files, part: &[u8]) -> Result<()> {
    rt.remove_file(spelt(part)?)
}

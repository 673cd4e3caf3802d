// Whether a command may write under a name: what the system says of it is asked, and nothing is lost by what is written there.
use crate::messages::{begin_line, complain_error};
use crate::names::fate_of;
use crate::status::named_by;
use crate::{Fate, Named, Unfound};
use std::rt::Files;

// A name under which a command may write: where a file stands there, the new one gets its rights, as the system numbers them.
#[derive(Clone, Copy)]
pub struct Spot {
    pub mode: Option<u32>,
}

// The spot of a name, for a command that reads two other files. Where it may not be written to, a line says why.
pub fn spot_for(
    rt: &impl Files,
    path: &[u8],
    first: &[u8],
    second: &[u8],
    err: i32,
) -> Option<Spot> {
    let out = named_by(rt, path, true);
    let fate = fate_of(out, named_by(rt, first, false), named_by(rt, second, false));
    match fate {
        Fate::New => Some(Spot { mode: None }),
        Fate::Old => Some(Spot {
            mode: out.file.ok().map(|file| file.mode % 4096),
        }),
        _ => {
            refuse(path, out, fate, err);
            None
        }
    }
}

fn refuse(path: &[u8], out: Named, fate: Fate, err: i32) {
    if let (Fate::Unknown, Err(Unfound::Failed(error))) = (fate, out.file) {
        // The system cannot tell what stands there, so that nothing is written over it.
        return complain_error(err, path, b"cannot be written", error);
    }
    begin_line(err, path);
    io::write_all(err, line_of(fate));
}

// The line that tells why nothing is written, to its end.
fn line_of(fate: Fate) -> &'static [u8] {
    match fate {
        Fate::Read => {
            b"is a file that this command reads, by this name or another; nothing is written there\n"
        }
        Fate::Link => b"is a symbolic link; give the name of the file that it leads to\n",
        Fate::Folder => b"is a folder\n",
        Fate::Special => b"is a device, a pipe or a socket; only a file is replaced\n",
        _ => b"may not be written by this user\n",
    }
}

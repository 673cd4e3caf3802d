// Files read and written whole, and the names under which a command may write.
#![tactic(auto)]

mod buffers;
mod messages;
mod names;
mod part_names;
mod placing;
mod read_files;
mod status;
mod system;
mod write_files;

pub use buffers::{LIST_ROOM, PICTURE_ROOM, room};
pub use messages::{begin_line, complain, complain_record, complain_why, show_text};
pub use placing::{Spot, spot_for};
pub use read_files::{read_start, read_whole};
pub use system::{STDERR_FILENO, STDIN_FILENO, STDOUT_FILENO};
pub use write_files::write_whole;

// What the system says of a file. Its numbers are the system's own, and its kind is four bits of the mode.
#[derive(Clone, Copy)]
pub struct Filed {
    pub device: u64,
    pub number: u64,
    pub mode: u32,
}

// Why a name leads to no file: nothing has it, or the system tells another error, by the system's own number.
#[derive(Clone, Copy)]
pub enum Unfound {
    Missing,
    Failed(i32),
}

// What the system says of a name.
#[derive(Clone, Copy)]
pub struct Named {
    // The file that the name leads to, links followed.
    pub file: Result<Filed, Unfound>,
    // The name itself is a symbolic link.
    pub link: bool,
    // This user may not write the file, which is not asked of one that is only read, nor behind a link.
    pub locked: bool,
}

// What becomes of a name under which a command wants to write.
#[derive(Clone, Copy, PartialEq, Eq)]
pub enum Fate {
    New,
    Old,
    Read,
    Link,
    Folder,
    Special,
    Locked,
    Unknown,
}

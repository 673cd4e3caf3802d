// Numbers of the system: the descriptors that every program is started with, its kinds of files, and the errors that are told
// apart here.
use std::io::Error;

pub const STDIN_FILENO: i32 = 0;

pub const STDOUT_FILENO: i32 = 1;

pub const STDERR_FILENO: i32 = 2;

// A name of so many bytes and more is too long for the system.
pub const PATH_MAX: usize = 4096;

// Kinds of files, as the system numbers them in four bits of the mode.
pub const REGULAR: u32 = 8;

pub const FOLDER: u32 = 4;

pub const EPERM: i32 = 1;

pub const ENOENT: i32 = 2;

pub const EACCES: i32 = 13;

pub const EEXIST: i32 = 17;

pub const ENOTDIR: i32 = 20;

pub const EISDIR: i32 = 21;

pub const EINVAL: i32 = 22;

pub const EFBIG: i32 = 27;

pub const ENOSPC: i32 = 28;

pub const EROFS: i32 = 30;

pub const ENAMETOOLONG: i32 = 36;

pub const ELOOP: i32 = 40;

// A name that is no text in UTF-8, which the system cannot be handed here.
pub const EILSEQ: i32 = 84;

// The system's number of an error. One of the library's own, which has none, is an argument that is not valid.
pub fn number_by(why: Error) -> i32 {
    why.raw_os_error().unwrap_or(EINVAL)
}

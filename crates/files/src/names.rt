// Which file a name stands for, as the system says, and whether a new file may take its place.
ghost use Rattle.std.specs.Prelude.{◌≡◌};
ghost use Rattle.files.specs.Names.{same_file, kind_fate, fate_of};

use crate::system::{FOLDER, REGULAR};
use crate::{Fate, Named, Unfound};

// Whether two names lead to one file, whose mode may have changed between the two answers.
fn same_file(a: Named, b: Named) -> bool
    ensures { result ≡ same_file a b }
{
    match (a.file, b.file) {
        (Ok(x), Ok(y)) => x.device == y.device && x.number == y.number,
        _ => false,
    }
}

// What becomes of a name, by what the system says of it and of the two files that the command reads.
pub fn fate_of(out: Named, first: Named, second: Named) -> Fate
    ensures { result ≡ fate_of out first second }
{
    if same_file(out, first) || same_file(out, second) {
        return Fate::Read;
    }
    if out.link {
        return Fate::Link;
    }
    match out.file {
        Ok(file) => kind_fate(file.mode / 4096 % 16, out.locked),
        Err(Unfound::Missing) => Fate::New,
        Err(Unfound::Failed(_)) => Fate::Unknown,
    }
}

// By a file's kind, which the four bits above its rights tell.
fn kind_fate(kind: u32, locked: bool) -> Fate
    ensures { result ≡ kind_fate kind locked }
{
    match kind {
        REGULAR if locked => Fate::Locked,
        REGULAR => Fate::Old,
        FOLDER => Fate::Folder,
        _ => Fate::Special,
    }
}

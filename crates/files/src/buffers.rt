// Room for lists, pictures and the like. A call hands an array over as an unknown of a known length, so that no proof writes a
// million zeros out.
ghost use Rattle.std.specs.Prelude.{◌≡◌};
ghost use Rattle.terms.specs.Common.{length};

// The bytes that a list takes where a command does not say how many, and at most.
pub const LIST_ROOM: usize = 1_048_576;

pub const PICTURE_ROOM: usize = 4_194_304;

pub fn room<const N: usize>() -> [u8; N]
    ensures { N ≡ length result }
{
    [0; N]
}

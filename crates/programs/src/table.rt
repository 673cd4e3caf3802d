// The table of the programs of a data set.
ghost use Rattle.std.specs.Prelude.{◌≡◌, ◌≤◌, length};

use crate::Program;

// The main program, and the subprograms in the order of their openings: ten places, of which so many are in use. The main's number is 0
// where it has no opening. The array's length is a fact of its own, since proofs know an array as a list.
#[derive(Clone, Copy)]
pub struct Programs {
    pub main: Program,
    pub count: usize,
    pub subs: [Program; 10],
    pub ghost places: { length subs ≡ 10 },
    pub ghost used: { count ≤ 10 },
}

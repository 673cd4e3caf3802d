// Prints the records of a list that comes on standard input, one to a line: the mark, then its numbers in layout order,
// with one space between. The last line is `end`, or what the reader refuses and the place of its mark. A list has to be
// shorter than 1 MiB.
#![tactic(auto)]

use files::{LIST_ROOM, STDIN_FILENO};

fn main(rt: HostRuntime) {
    let mut buffer = files::room::<LIST_ROOM>();
    let n = io::read_full(STDIN_FILENO, &mut buffer);
    if n == 1048576 {
        let _ = rt.println("too long");
        return;
    }
    let _ = answers::show_list(&rt, &buffer[..n]);
}

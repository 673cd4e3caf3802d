// Document 01's listing: runs the data on standard input under setup T, with room for 4,096 bytes of records, and prints the
// records and then the answer.
#![tactic(auto)]

use files::STDIN_FILENO;
use std::io::Print;

// The buffer holds one byte more than data may have, so that longer data is refused and not cut.
fn main(rt: HostRuntime) {
    let mut data = io::large_buffer();
    let n = io::read_full(STDIN_FILENO, &mut data);
    list_run(&rt, &data[..n]);
}

fn list_run(rt: &impl Print, data: &[u8]) {
    let mut list = io::buffer();
    let report = interpreter::run(setup::setup_t(), data, &mut list);
    let answer = report.answer;
    let _ = answers::show_run(rt, &list, answer);
}

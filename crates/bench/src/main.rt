// Runs the data on standard input under setup T, as many times as the argument says and each time into the same buffer, and
// prints one line: that number, the blocks that a run executes, and the records that it makes. The time of a block is
// measured from outside, by two numbers of runs, so that all that is done once is taken off.
#![tactic(auto)]

use files::{LIST_ROOM, STDIN_FILENO};
use refusals::Answer;
use std::io::Print;
use std::rt::Env;

fn main(rt: HostRuntime) {
    let mut word = [0u8; 32];
    let n = rt.arg(1, &mut word).unwrap_or(0);
    let Some(times) = texts::digits_at(&word[..n], 0, n) else {
        let _ = eprintln!(rt; "bench: wants a number of runs");
        return;
    };
    let mut data = io::large_buffer();
    let length = io::read_full(STDIN_FILENO, &mut data);
    measure(&rt, times, &data[..length]);
}

fn measure(rt: &impl Print, times: u64, bytes: &[u8]) {
    let mut list = files::room::<LIST_ROOM>();
    let records = run_times(times, bytes, &mut list);
    let blocks = least(enough(bytes, &mut list), bytes, &mut list);
    let _ = println!(rt; "{times} {blocks} {records}");
}

// Answers the records of the last run.
fn run_times(times: u64, bytes: &[u8], list: &mut [u8]) -> usize {
    let mut records: usize = 0;
    for _ in 0..times {
        let report = interpreter::run(setup::setup_t(), bytes, list);
        let answer = report.answer;
        records = refusals::count_of(answer);
    }
    records
}

// Whether so many blocks bring a run to its end or to a refusal.
fn is_over(blocks: u64, bytes: &[u8], list: &mut [u8]) -> bool {
    let report = interpreter::run_blocks(setup::setup_t(), bytes, list, blocks);
    let answer = report.answer;
    match answer {
        Answer::Unfinished(_) => false,
        Answer::Done(_) => true,
        Answer::Refused(_, _, _) => true,
    }
}

// A number of blocks after which a run is over: 0, or a power of 2 whose half is too few. More than the last one that is
// tried no data of 65,535 bytes can execute.
fn enough(bytes: &[u8], list: &mut [u8]) -> u64 {
    if is_over(0, bytes, list) {
        return 0;
    }
    let mut blocks: u64 = 1;
    while blocks <= 4_611_686_018_427_387_904 {
        if is_over(blocks, bytes, list) {
            return blocks;
        }
        blocks = blocks * 2;
    }
    blocks
}

// The least number of blocks after which a run is over, from one that is enough and whose half is too few.
fn least(enough: u64, bytes: &[u8], list: &mut [u8]) -> u64 {
    let mut few = enough / 2;
    let mut many = enough;
    while 1 < many - few {
        let middle = few + (many - few) / 2;
        if is_over(middle, bytes, list) {
            many = middle;
        } else {
            few = middle;
        }
    }
    many
}

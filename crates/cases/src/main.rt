// Runs the cases that come on standard input, one after the other, and prints for each the records and then the answer. How
// a case is written, `case_text` says. What is no case ends the run by `bad case`. The input has to be shorter than 1 MiB.
#![tactic(auto)]

mod case_text;

ghost use Rattle.std.specs.Prelude.{◌≤◌};
ghost use Rattle.terms.specs.Common.{length};
ghost use Rattle.interpreter.specs.Owing.{Owes};
ghost use Rattle.cases.specs.Budgets.{budget_by};

use case_text::case_at;
use files::{LIST_ROOM, STDIN_FILENO};
use runs::Report;
use setup::Setup;
use std::io::Print;

// A word as a count, and the place after it.
#[derive(Clone, Copy)]
pub struct Counted {
    pub count: Option<u64>,
    pub next: usize,
}

// A case's parts, the places where its data begin and end among them.
#[derive(Clone, Copy)]
pub struct Case {
    pub setup: Setup,
    pub blocks: Option<u64>,
    pub room: u64,
    pub from: usize,
    pub end: usize,
}

fn main(rt: HostRuntime) {
    let mut input = files::room::<LIST_ROOM>();
    let n = io::read_full(STDIN_FILENO, &mut input);
    if n == 1048576 {
        let _ = rt.println("too long");
        return;
    }
    let mut list = io::large_buffer();
    run_cases(&rt, &input[..n], &mut list);
}

fn run_cases(rt: &impl Print, input: &[u8], list: &mut [u8]) {
    let mut at: usize = 0;
    while at < input.len() {
        let Some(case) = case_at(input, at, list.len()) else {
            let _ = rt.println("bad case");
            return;
        };
        run_case(rt, case, input, list);
        at = case.end + 1;
    }
}

fn run_case(rt: &impl Print, case: Case, input: &[u8], list: &mut [u8])
    requires { (case.from ≤ case.end) × (case.end ≤ length input.now) × (case.room ≤ length list.old) }
{
    let setup = case.setup;
    let blocks = case.blocks;
    let from = case.from;
    let end = case.end;
    let room = case.room as usize;
    let report = report_to(setup, blocks, &input[from..end], &mut list[..room]);
    let answer = report.answer;
    let _ = answers::show_run(rt, list, answer);
}

fn report_to(setup: Setup, blocks: Option<u64>, bytes: &[u8], list: &mut [u8]) -> Report
    ensures { Owes setup bytes.now (budget_by blocks) list.old list.new result }
{
    match blocks {
        Some(n) => interpreter::run_blocks(setup, bytes, list, n),
        None => interpreter::run(setup, bytes, list),
    }
}

// The program for the shops: its arguments are a command.
#![tactic(auto)]

ghost use Rattle.terms.specs.Common.{length};
ghost use Rattle.std.specs.Prelude.{IfOk, IfSome, ◌≤◌};
ghost use Rattle.io.specs.Counts.{IsPrefixLen};

use files::STDERR_FILENO;
use std::env::FillError;
use std::rt::Env;

fn main(rt: HostRuntime) {
    let mut line = files::room::<8192>();
    match gather(&rt, &mut line) {
        Some(n) => shop::do_command(&rt, &line[..n], STDERR_FILENO),
        None => {
            io::write_all(STDERR_FILENO, b"iswenaid: the command is too long\n");
        }
    }
}

// The arguments after the program's own name, each ended by a byte 0: how many bytes they take, or none where they do not fit.
fn gather(rt: &impl Env, line: &mut [u8]) -> Option<usize>
    ensures { IfSome result (λ count. IsPrefixLen count line.new) }
{
    let mut at: usize = 0;
    for i in 1..usize::MAX {
        match put_argument(rt, line, at, i) {
            Ok(next) => at = next,
            Err(FillError::NotPresent) => break,
            Err(FillError::TooLong) => return None,
        }
    }
    Some(at)
}

// One argument from a place on, and the place after its end.
fn put_argument(rt: &impl Env, line: &mut [u8], at: usize, i: usize) -> Result<usize, FillError>
    requires { at ≤ length line.old }
    ensures { IfOk result (λ next. next ≤ length line.new) }
{
    let end = at + rt.arg(i, &mut line[at..])?;
    if end < line.len() {
        line[end] = 0;
        return Ok(end + 1);
    }
    Err(FillError::TooLong)
}

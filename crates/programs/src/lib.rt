// The programs of a data set: its openings, and the table of subprograms.
#![tactic(auto)]

mod openings;
mod table;

ghost use Rattle.std.specs.Prelude.{MatchOption, ◌≡◌, ◌≤◌, ◌<◌};
ghost use Rattle.terms.specs.Common.{true, length, drop};
ghost use Rattle.lines.specs.Blocks.{text_from};
ghost use Rattle.programs.specs.{Openings.figures_of, Openings.number_after_o, Openings.is_taken, Openings.entry_of, Found.IsDigits, Found.subs_of, Found.Empty};

pub use openings::{find_callee, find_programs};
use refusals::Refusal;
pub use table::Programs;

// A program of the data: its number, and the block and byte that follow its opening.
#[derive(Clone, Copy)]
pub struct Program {
    pub number: u64,
    pub block: usize,
    pub byte: usize,
}

// The digits of an opening: how many there are, and their value.
#[derive(Clone, Copy)]
pub struct Digits {
    pub count: usize,
    pub value: u64,
}

// The digits from a place on, or none where there are more than eight.
fn read_digits(s: &[u8], at: usize) -> Option<Digits>
    requires { at ≤ length s.now }
    ensures { MatchOption result (8 < length (figures_of (text_from (drop at s.now)))) (IsDigits (text_from (drop at s.now))) }
{
    let mut value: u64 = 0;
    for (count, b) in s[at..].iter().enumerate() {
        if !b.is_ascii_digit() {
            return Some(Digits { count, value });
        }
        if count == 8 {
            return None;
        }
        value = value * 10 + (*b - b'0') as u64;
    }
    let count = s.len() - at;
    Some(Digits { count, value })
}

// The number of the opening whose `O` stands just before a place, or none where its form is none.
pub fn read_opening(s: &[u8], at: usize) -> Option<u64>
    requires { at ≤ length s.now }
    ensures { result ≡ number_after_o (text_from (drop at s.now)) }
{
    let d = read_digits(s, at)?;
    if d.count == 0 {
        return None;
    }
    if d.value == 0 {
        return None;
    }
    if 9999 < d.value {
        return None;
    }
    if lines::only_gaps(s, at + d.count) {
        Some(d.value)
    } else {
        None
    }
}

// Whether a number is the main's or one of the subprograms'.
fn is_taken(t: Programs, n: u64) -> bool
    ensures { result ≡ is_taken t.main (subs_of t) n }
{
    n == t.main.number || t.subs[..t.count].iter().any(|p| n == p.number)
}

// The number of a subprogram's opening, which enters the table, or the refusal of the opening.
pub fn entry_of(t: Programs, o: Option<u64>) -> Result<u64, Refusal>
    ensures { result ≡ entry_of t.main (subs_of t) o }
{
    let n = o.ok_or(Refusal::BadParameter)?;
    if is_taken(t, n) {
        return Err(Refusal::DuplicateNumber);
    }
    if 10 <= t.count {
        return Err(Refusal::TableOver);
    }
    Ok(n)
}

// A table with no subprogram yet.
pub fn only_main(main: Program) -> Programs
    ensures { Empty main result }
{
    Programs {
        main,
        count: 0,
        subs: [main; 10],
    }
}

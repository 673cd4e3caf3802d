// The programs of a data set, found by one scan over its blocks, and a program by its number.
ghost use Rattle.std.specs.Prelude.{◌≡◌, ◌+◌, ◌≤◌, ◌<◌};
ghost use Rattle.terms.specs.Common.{length};
ghost use Rattle.lines.specs.{Blocks.length_from, Blocks.block_from, Serving.blocks_from};
ghost use Rattle.programs.specs.{Openings.scan, Openings.programs_from, Openings.known, Found.subs_of, Found.table_of, Found.Entered, Answers.callee_by};

use crate::{Program, Programs};
use refusals::{Place, Refusal, Refused};

// The table with one subprogram more: its number, and the block and byte that follow its opening.
fn with_program(t: Programs, number: u64, block: usize, byte: usize) -> Programs
    requires { t.count < 10 }
    ensures { Entered t (record { number = number; block = block; byte = byte }) result }
{
    let at = t.count;
    let mut next = t;
    next.subs[at] = Program {
        number,
        block,
        byte,
    };
    next.count = at + 1;
    next
}

// The openings from a block on, whose number and place are given. A block's first byte is looked at, and then its bytes are passed up to its
// LF; the scan is left from inside a block, at an opening that is refused or at the closing `%`.
// The labelled loop is a form that the project wants (docs/DECISIONS.md, "Forms for each place").
fn scan_openings(s: &[u8], from: usize, number: usize, found: Programs) -> Result<Programs, Refused>
    requires { number ≤ from + 1 }
    ensures { table_of result ≡ scan found.main (blocks_from s.now number from) (subs_of found) }
{
    let mut programs = found;
    let mut at = from;
    let mut block = number;
    'blocks: loop {
        let mut i = at;
        while i < s.len() {
            if s[i] == b'\n' {
                at = i + 1;
                block += 1;
                continue 'blocks;
            }
            if at < i {
                i += 1;
                continue;
            }
            if lines::is_percent(s, at) {
                break 'blocks;
            }
            if s[at] == b'O' {
                match crate::entry_of(programs, crate::read_opening(s, at + 1)) {
                    Err(refusal) => {
                        let place = Place { block, byte: at };
                        return Err(Refused { refusal, place });
                    }
                    Ok(n) => {
                        at = lines::next_block(s, at);
                        block += 1;
                        programs = with_program(programs, n, block, at);
                        continue 'blocks;
                    }
                }
            }
            i = lines::near_end(s, i + 1);
        }
        break;
    }
    Ok(programs)
}

// The programs of data whose first block is `%` alone: the main program, under an opening in the second block or without
// one, and the subprograms.
pub fn find_programs(s: &[u8]) -> Result<Programs, Refused>
    requires { 0 < length s.now }
    ensures { table_of result ≡ programs_from (block_from 1 0 s.now) (blocks_from s.now 2 (0 + length_from s.now)) }
{
    let at = lines::next_block(s, 0);
    if !lines::begins_with(s, at, b'O') {
        let main = Program {
            number: 0,
            block: 2,
            byte: at,
        };
        return scan_openings(s, at, 2, crate::only_main(main));
    }
    let Some(number) = crate::read_opening(s, at + 1) else {
        return Err(Refused {
            refusal: Refusal::BadParameter,
            place: Place { block: 2, byte: at },
        });
    };
    let next = lines::next_block(s, at);
    let main = Program {
        number,
        block: 3,
        byte: next,
    };
    scan_openings(s, next, 3, crate::only_main(main))
}

// The subprogram of a number. The main program is none.
fn find(t: Programs, n: u64) -> Option<Program>
    ensures { result ≡ known (subs_of t) n }
{
    t.subs[..t.count].iter().find(|p| p.number == n).copied()
}

// The subprogram of a number: 5 where there is none, and then 6 where no level is left for it.
pub fn find_callee(programs: Programs, left: usize, number: u64) -> Result<Program, Refusal>
    ensures { result ≡ callee_by (known (subs_of programs) number) left }
{
    let program = find(programs, number).ok_or(Refusal::NumberNotFound)?;
    if left == 0 {
        return Err(Refusal::NestOver);
    }
    Ok(program)
}

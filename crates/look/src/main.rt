// Prints what the lower half of the interpreter makes of a data set that comes on standard input: the programs that its
// openings give, or the opening that is refused, and then a line for each block after the first, with the values of its
// words or the refusal that they get by themselves. Blocks are read one after the other, each as one of the main program,
// so that a block's codes hold for the next; none is executed. The skip switch is off, and the speeds are 3000 to 8000.
#![tactic(auto)]

ghost use Rattle.std.specs.Prelude.{◌≡◌, ◌≤◌, ◌<◌};
ghost use Rattle.terms.specs.Common.{false, pos, List, length, get_or, take};
ghost use Rattle.words.specs.{declared.Word.Word, Packed.words_in};
ghost use Rattle.lengths.specs.Units.{len};
ghost use Rattle.letters.specs.{Letters.code_under, Letters.has_centre, Judging.CentreSeen, Judging.Stored, Judging.judged_by};

use files::STDIN_FILENO;
use lengths::Len;
use letters::{Speeds, Unfit};
use programs::Programs;
use reading::Reading;
use refusals::{Place, Refusal};
use settings::Modes;
use std::io::Print;
use words::Values;

fn main(rt: HostRuntime) {
    let mut buffer = files::room::<65536>();
    let n = io::read_full(STDIN_FILENO, &mut buffer);
    if n == 65536 {
        let _ = rt.println("too long");
        return;
    }
    let _ = show_data(&rt, &buffer[..n]);
}

// Without the first `%` nothing else is looked at.
fn show_data(rt: &impl Print, s: &[u8]) -> std::io::Result<()> {
    if s.len() == 0 {
        return show_first_block(rt);
    }
    if lines::is_percent(s, 0) {
        show_openings(rt, s)?;
        show_blocks(rt, s)
    } else {
        show_first_block(rt)
    }
}

fn show_first_block(rt: &impl Print) -> std::io::Result<()> {
    show_bad_opening(rt, Refusal::FirstBlock, Place { block: 1, byte: 0 })
}

fn show_bad_opening(rt: &impl Print, refusal: Refusal, place: Place) -> std::io::Result<()> {
    println!(rt; "openings refused {} {place}", refusals::number(refusal))
}

fn show_openings(rt: &impl Print, s: &[u8]) -> std::io::Result<()>
    requires { 0 < length s.now }
{
    match programs::find_programs(s) {
        Err(refused) => show_bad_opening(rt, refused.refusal, refused.place),
        Ok(found) => show_programs(rt, found),
    }
}

// The main program, and the subprograms that are in use.
fn show_programs(rt: &impl Print, t: Programs) -> std::io::Result<()> {
    println!(rt; "openings main {} {}", t.main.block, t.main.byte)?;
    for p in t.subs.iter().take(t.count) {
        println!(rt; "sub {} {} {}", p.number, p.block, p.byte)?;
    }
    Ok(())
}

// The blocks after the first, up to the closing `%`. An opening is no block that is read.
fn show_blocks(rt: &impl Print, s: &[u8]) -> std::io::Result<()> {
    let mut at = lines::next_block(s, 0);
    let mut modes = settings::first_modes();
    for number in 2..usize::MAX {
        if s.len() <= at || lines::is_percent(s, at) {
            break;
        }
        if s[at] != b'O' {
            print!(rt; "block {number}")?;
            modes = show_block(rt, s, at, modes)?;
        }
        at = lines::next_block(s, at);
    }
    Ok(())
}

// What a block comes to, and the modes that hold after it. A refused block leaves them as they were.
fn show_block(rt: &impl Print, s: &[u8], at: usize, modes: Modes) -> std::io::Result<Modes>
    requires { at < length s.now }
{
    let mut words = [0u64; 13];
    let mut places = [0usize; 13];
    let from = after_slash(s, at);
    match reading::read_words(s, from, true, modes, &mut words, &mut places) {
        Err(blame) => {
            show_refused(rt, blame.refusal, blame.byte)?;
            Ok(modes)
        }
        Ok(read) => {
            let seen = read.seen;
            show_judged(
                rt,
                judged(speeds(), read, &words, &places),
                modes,
                seen.modes,
            )
        }
    }
}

// The slash of a block is ignored, the switch being off.
fn after_slash(s: &[u8], at: usize) -> usize
    requires { at < length s.now }
    ensures { result ≤ length s.now }
{
    if s[at] == b'/' { at + 1 } else { at }
}

// What the block's code makes of its words. The codes' group 7 is G04 alone.
fn judged(
    range: Speeds,
    read: Reading,
    words: &[u64; 13],
    places: &[usize; 13],
) -> Result<Values, Unfit>
    requires { Stored (words_in words.now places.now) read.count }
    ensures { (ws : List Word) → CentreSeen ws (get_or read.seen.letters 8 false) (get_or read.seen.letters 9 false) (get_or read.seen.letters 10 false) → result ≡ judged_by range read.seen.modes (code_under read.seen.misc (get_or read.seen.groups 7 false) read.seen.modes.motion) (has_centre (code_under read.seen.misc (get_or read.seen.groups 7 false) read.seen.modes.motion) read.seen.modes.plane ws) (take read.count (words_in words.now places.now)) }
{
    let seen = read.seen;
    let misc = seen.misc;
    let groups = seen.groups;
    let modes = seen.modes;
    let motion = modes.motion;
    let dwells = groups[7];
    let code = letters::block_code(misc, dwells, motion);
    let stood = seen.letters;
    let plane = modes.plane;
    let centred = letters::has_centre(code, plane, stood[8], stood[9], stood[10]);
    letters::judge(range, modes, code, centred, words, places, read.count)
}

fn speeds() -> Speeds
    ensures { (result.lowest ≡ len (pos 3000)) × (result.highest ≡ len (pos 8000)) }
{
    Speeds {
        lowest: Len::of_count(3000),
        highest: Len::of_count(8000),
    }
}

// Answers with the modes that hold after the block.
fn show_judged(
    rt: &impl Print,
    verdict: Result<Values, Unfit>,
    before: Modes,
    after: Modes,
) -> std::io::Result<Modes> {
    match verdict {
        Err(Unfit::Unused(place)) => {
            show_refused(rt, Refusal::AddressUndefined, place)?;
            Ok(before)
        }
        Err(Unfit::Bad(place)) => {
            show_refused(rt, Refusal::BadParameter, place)?;
            Ok(before)
        }
        Ok(values) => {
            show_values(rt, values)?;
            Ok(after)
        }
    }
}

// A block's refusal and its place, on the block's line.
fn show_refused(rt: &impl Print, refusal: Refusal, byte: usize) -> std::io::Result<()> {
    println!(rt; " {} {byte}", refusals::number(refusal))
}

fn show_values(rt: &impl Print, v: Values) -> std::io::Result<()> {
    rt.print(" words")?;
    show_value(rt, "X", v.x)?;
    show_value(rt, "Y", v.y)?;
    show_value(rt, "Z", v.z)?;
    show_value(rt, "I", v.i)?;
    show_value(rt, "J", v.j)?;
    show_value(rt, "K", v.k)?;
    show_value(rt, "R", v.r)?;
    show_value(rt, "P", v.p)?;
    show_value(rt, "F", v.f)?;
    show_value(rt, "S", v.s)?;
    println!(rt)
}

// A letter whose word does not stand is left out.
fn show_value(rt: &impl Print, letter: &str, g: Option<Len>) -> std::io::Result<()> {
    let Some(v) = g else {
        return Ok(());
    };
    print!(rt; " {letter}={v}")
}

// The list that a run leaves for a file: the run with a part of a buffer as its room, and where its records end there.
#![tactic(auto)]

ghost use Rattle.std.specs.Prelude.{◌≡◌, ◌≤◌};
ghost use Rattle.terms.specs.Common.{length};
ghost use Rattle.commands.specs.Options.{room_of};
ghost use Rattle.interpreter.specs.Owing.{Owes};
ghost use Rattle.list_files.specs.Lists.{budget_of, Makes, is_written};

use commands::Options;
use refusals::Answer;
use runs::Report;
use setup::Setup;

// Runs as many blocks as the options say.
fn report_in(setup: Setup, bytes: &[u8], list: &mut [u8], options: Options) -> Report
    ensures { Owes setup bytes.now (budget_of options) list.old list.new result }
{
    match options.blocks {
        None => interpreter::run(setup, bytes, list),
        Some(n) => interpreter::run_blocks(setup, bytes, list, n),
    }
}

// Runs the data into a buffer. What stands before the end are the records, and nothing else.
pub fn make_list(setup: Setup, bytes: &[u8], list: &mut [u8], options: Options) -> Report
    requires { room_of options ≤ length list.old }
    ensures { Makes setup bytes.now options list.old list.new result }
{
    let room = options.room();
    report_in(setup, bytes, &mut list[..room], options)
}

// Whether the list's file gets the records of a run with this answer.
pub fn is_written(answer: Answer, options: Options) -> bool
    ensures { result ≡ is_written options answer }
{
    match answer {
        Answer::Done(_) => options.listed,
        Answer::Unfinished(_) => options.listed,
        Answer::Refused(_, _, _) => options.listed & options.partial,
    }
}

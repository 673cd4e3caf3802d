// The sixteen refusals of document 01's table, in its order, the place that a refusal names, and what a run answers.
#![tactic(auto)]

mod printing;

ghost use Rattle.std.specs.Prelude.{◌≡◌};
ghost use Rattle.refusals.specs.{Numbers.number_of, Answers.count_of};

#[derive(Clone, Copy)]
pub enum Refusal {
    BadParameter,
    AddressUndefined,
    ParameterUndefined,
    CannotExecute,
    NumberNotFound,
    NestOver,
    TableOver,
    DuplicateNumber,
    LeavesTravel,
    NoRoom,
    FirstBlock,
    BadSetup,
    DataTooLong,
    NoEnd,
    Unreadable,
    CentreTooFar,
}

// Blocks count from 1, bytes from 0; both are 0 where the data is not to blame.
#[derive(Clone, Copy)]
pub struct Place {
    pub block: usize,
    pub byte: usize,
}

// A block's refusal, and the byte of the data that it names.
#[derive(Clone, Copy)]
pub struct Blame {
    pub refusal: Refusal,
    pub byte: usize,
}

// A refusal of the data before any block, and the place that it names.
#[derive(Clone, Copy)]
pub struct Refused {
    pub refusal: Refusal,
    pub place: Place,
}

// What a run answers, with the count of the records that stand in the list.
// No `Result`: a run has three outcomes, and an unfinished one is no failure.
#[derive(Clone, Copy)]
pub enum Answer {
    Done(usize),
    Unfinished(usize),
    Refused(Refusal, Place, usize),
}

// The number of a refusal in document 01's table.
pub fn number(r: Refusal) -> u64
    ensures { result ≡ number_of r }
{
    match r {
        Refusal::BadParameter => 1,
        Refusal::AddressUndefined => 2,
        Refusal::ParameterUndefined => 3,
        Refusal::CannotExecute => 4,
        Refusal::NumberNotFound => 5,
        Refusal::NestOver => 6,
        Refusal::TableOver => 7,
        Refusal::DuplicateNumber => 8,
        Refusal::LeavesTravel => 9,
        Refusal::NoRoom => 10,
        Refusal::FirstBlock => 11,
        Refusal::BadSetup => 12,
        Refusal::DataTooLong => 13,
        Refusal::NoEnd => 14,
        Refusal::Unreadable => 15,
        Refusal::CentreTooFar => 16,
    }
}

// The count of records that an answer names.
pub fn count_of(answer: Answer) -> usize
    ensures { result ≡ count_of answer }
{
    match answer {
        Answer::Done(count) | Answer::Unfinished(count) | Answer::Refused(_, _, count) => count,
    }
}

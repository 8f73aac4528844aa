// Why a call or a step is refused.
ghost use Rattle.std.specs.Prelude.{◌≡◌, eqb};
ghost use Rattle.answers.specs.Refusal.{answer_to, answer_of_check};

use crate::Answer;
use cells::TermPlace;

// What stops a step or a call, with what it carries: places, names, tags as compared, a code, lengths.
#[derive(Clone, Copy, PartialEq, Eq)]
pub enum Refusal {
    // From the input.
    ConclusionCount(u32),
    WrongForm(TermPlace),
    NoQuantifier(TermPlace),
    OtherQuantifier(u32, u32),
    TermsDiffer(TermPlace, TermPlace),
    ListsDiffer(TermPlace, TermPlace),
    NotJoined(TermPlace, TermPlace),
    NewVariable(u32),
    MissingVariable(u32),
    ClauseAbsent(TermPlace),
    OperandCounts(u32, u32),
    StillFree(u32, TermPlace),
    EmptyOr,
    IllFormed(u32),
    Repeated(u32),
    WrongSort(u32),
    NotATerm(TermPlace),
    UnknownRule(u32),
    // From the state.
    BadArrays,
    NoRoom,
    TooManyClauses,
    // From a table of sort rules.
    BadTable(u32),
    NotBool(u32),
}

impl Refusal {
    // Whether it is 30, after which nothing may have changed.
    pub fn is_bad_arrays(self) -> bool
        ensures { result ≡ eqb (answer_to self).code 30 }
    {
        matches!(self, Refusal::BadArrays)
    }
}

// Document 01's number of a refusal, and the two numbers that it carries.
impl From<Refusal> for Answer {
    ghost from_gives = { λ r a. a ≡ answer_to r };

    fn from(refusal: Refusal) -> Answer {
        match refusal {
            Refusal::ConclusionCount(found) => Answer::refused(1, found, 0),
            Refusal::WrongForm(x) => Answer::refused(2, x.0, 0),
            Refusal::NoQuantifier(x) => Answer::refused(3, x.0, 0),
            Refusal::OtherQuantifier(wanted, found) => Answer::refused(4, wanted, found),
            Refusal::TermsDiffer(x, y) => Answer::refused(5, x.0, y.0),
            Refusal::ListsDiffer(x, y) => Answer::refused(6, x.0, y.0),
            Refusal::NotJoined(left, right) => Answer::refused(7, left.0, right.0),
            Refusal::NewVariable(name) => Answer::refused(8, name, 0),
            Refusal::MissingVariable(name) => Answer::refused(9, name, 0),
            Refusal::ClauseAbsent(x) => Answer::refused(10, x.0, 0),
            Refusal::OperandCounts(wanted, found) => Answer::refused(11, wanted, found),
            Refusal::StillFree(name, x) => Answer::refused(12, name, x.0),
            Refusal::EmptyOr => Answer::refused(13, 0, 0),
            Refusal::IllFormed(p) => Answer::refused(14, p, 0),
            Refusal::Repeated(p) => Answer::refused(15, p, 0),
            Refusal::WrongSort(p) => Answer::refused(16, p, 0),
            Refusal::NotATerm(x) => Answer::refused(17, x.0, 0),
            Refusal::UnknownRule(code) => Answer::refused(18, code, 0),
            Refusal::BadArrays => Answer::refused(30, 0, 0),
            Refusal::NoRoom => Answer::refused(31, 0, 0),
            Refusal::TooManyClauses => Answer::refused(32, 0, 0),
            Refusal::BadTable(entry) => Answer::refused(40, entry, 0),
            Refusal::NotBool(entry) => Answer::refused(41, entry, 0),
        }
    }
}

// A check that passes is accepted, and carries nothing.
impl From<Result<(), Refusal>> for Answer {
    ghost from_gives = { λ r a. a ≡ answer_of_check r };

    fn from(checked: Result<(), Refusal>) -> Answer {
        match checked {
            Ok(()) => Answer::accepted(0, 0),
            Err(refusal) => Answer::from(refusal),
        }
    }
}

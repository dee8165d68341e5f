// Why a roster file is refused, and where.
ghost use Rattle.std.specs.Prelude.{◌≡◌};
ghost use Rattle.files.specs.Faults.{file_number, cause_number, layer_of, line_of, item_of, at_line};
ghost use Rattle.files.specs.declared.fault.Cause.TheVariants as causes;

use model::refusals::{Refusal, RosterRefusal, StepsRefusal};
use std::fmt;
use thiserror::Error;

// A file that is not laid out as a roster file is.
#[derive(Clone, Copy, PartialEq, Eq, Debug, Error)]
pub enum FileRefusal {
    // too long, no newline at the end, or blocks missing or too many
    #[error("a file is not laid out as a roster file is")]
    Layout = 19,
    #[error("a line does not name the columns of its block")]
    Names = 20,
    #[error("a count of values, or of lines of values, is wrong")]
    Count = 21,
    #[error("an item is not a value")]
    Value = 22,
}

impl Refusal for FileRefusal {
    ghost number_of = { file_number };

    fn number(self) -> u8 {
        // std has no `From` of an enum for its number
        self as u8
    }
}

// A refusal of the step table, of a task or a section, or of the file itself.
#[derive(Clone, Copy, PartialEq, Eq, Debug, Error)]
pub enum Cause {
    #[error(transparent)]
    Steps(StepsRefusal),
    #[error(transparent)]
    Roster(RosterRefusal),
    #[error(transparent)]
    File(FileRefusal),
}

// Who found the fault: the reader of a value, of a line, of the file, or the roster.
#[derive(Clone, Copy, PartialEq, Eq, Debug)]
pub enum Layer {
    Value = 1,
    Line = 2,
    File = 3,
    Roster = 4,
}

// Where the fault is. Lines and items are counted from 1.
#[derive(Clone, Copy, PartialEq, Eq, Debug)]
pub enum Place {
    File,
    Line(usize),
    Item { line: usize, item: usize },
}

#[derive(Clone, Copy, PartialEq, Eq, Debug, Error)]
#[error("{place}: {cause}")]
pub struct Fault {
    pub cause: Cause,
    pub place: Place,
}

// All three by hand: a derive was tried, and what it writes has no contract, so that the clauses which name the cause that
// comes of a refusal stay open.
impl From<StepsRefusal> for Cause {
    ghost from_gives = { λ refusal cause. cause ≡ causes.Steps refusal };

    fn from(refusal: StepsRefusal) -> Cause {
        Cause::Steps(refusal)
    }
}

impl From<RosterRefusal> for Cause {
    ghost from_gives = { λ refusal cause. cause ≡ causes.Roster refusal };

    fn from(refusal: RosterRefusal) -> Cause {
        Cause::Roster(refusal)
    }
}

impl From<FileRefusal> for Cause {
    ghost from_gives = { λ refusal cause. cause ≡ causes.File refusal };

    fn from(refusal: FileRefusal) -> Cause {
        Cause::File(refusal)
    }
}

impl Fault {
    // A line that is refused as a whole.
    pub(crate) fn at_line(refusal: FileRefusal, line: usize) -> Fault
        ensures { result ≡ at_line refusal line }
    {
        Fault {
            cause: refusal.into(),
            place: Place::Line(line),
        }
    }

    pub fn number(&self) -> u8
        ensures { result ≡ cause_number self.now.cause }
    {
        match self.cause {
            Cause::Steps(refusal) => refusal.number(),
            Cause::Roster(refusal) => refusal.number(),
            Cause::File(refusal) => refusal.number(),
        }
    }

    pub fn layer(&self) -> Layer
        ensures { result ≡ layer_of self.now.cause }
    {
        match self.cause {
            Cause::Steps(_) | Cause::Roster(_) => Layer::Roster,
            Cause::File(FileRefusal::Layout) => Layer::File,
            Cause::File(FileRefusal::Names | FileRefusal::Count) => Layer::Line,
            Cause::File(FileRefusal::Value) => Layer::Value,
        }
    }

    // The number of its line. A rule of the project: the format prints numbers, and 0 stands for the file as a whole.
    pub fn line(&self) -> usize
        ensures { result ≡ line_of self.now.place }
    {
        match self.place {
            Place::File => 0,
            Place::Line(line) | Place::Item { line, .. } => line,
        }
    }

    // The number of its item. A rule of the project: the format prints numbers, and 0 stands for no item.
    pub fn item(&self) -> usize
        ensures { result ≡ item_of self.now.place }
    {
        match self.place {
            Place::File | Place::Line(_) => 0,
            Place::Item { item, .. } => item,
        }
    }
}

impl fmt::Display for Place {
    fn fmt<W: fmt::Write>(&self, f: &mut fmt::Formatter<W>) -> fmt::Result {
        match self {
            Place::File => f.write_str("the file"),
            Place::Line(line) => write!(f, "line {line}"),
            Place::Item { line, item } => write!(f, "line {line}, item {item}"),
        }
    }
}

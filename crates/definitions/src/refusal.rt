// Refusals: the question, or check, that is answered no, and the table that it was put to.
ghost use Rattle.std.specs.Prelude.{◌≡◌};
ghost use Rattle.definitions.specs.declared.refusal.Subject.TheVariants.{Both};
ghost use Rattle.definitions.specs.Refusal.{question_number, table_number, put_to};

use std::error::Error;
use std::fmt;

// The questions of document 01, in their order, and the checks of the requests, each by what it asks and with its number in the documents.
#[derive(Clone, Copy, Debug, PartialEq, Eq)]
pub enum Question {
    Header = 1,
    Columns = 2,
    Rows = 3,
    Length = 4,
    ColumnWords = 5,
    Ids = 6,
    Cells = 7,
    UnionColumns = 8,
    Sets = 9,
    TableRoom = 10,
    SetRoom = 11,
    ListLayout = 12,
    Records = 13,
    SetOrder = 14,
    Page = 15,
    PageRoom = 16,
}

impl Question {
    // Its number in the documents.
    pub fn number(self) -> u32
        ensures { result ≡ question_number self }
    {
        self as u32
    }

    // A no to it, where it was put to this table.
    pub fn put_to(self, subject: Subject) -> Refusal
        ensures { result ≡ put_to subject self }
    {
        Refusal {
            question: self,
            subject,
        }
    }
}

// The table that a question is put to, with its number in an answer: the first or only one, the second, or what both make.
#[derive(Clone, Copy, Debug, PartialEq, Eq)]
pub enum Subject {
    First = 0,
    Second = 1,
    Both = 2,
}

impl Subject {
    // Its number in an answer.
    pub fn number(self) -> u32
        ensures { result ≡ table_number self }
    {
        self as u32
    }
}

// "A refusal gives the number and the table".
#[derive(Clone, Copy, Debug, PartialEq, Eq)]
pub struct Refusal {
    pub question: Question,
    pub subject: Subject,
}

// A question that is put to no single table.
impl From<Question> for Refusal {
    ghost from_gives = { λ q r. r ≡ put_to Both q };

    fn from(question: Question) -> Refusal {
        question.put_to(Subject::Both)
    }
}

// As the program `fuse` prints it.
impl fmt::Display for Refusal {
    fn fmt<W: fmt::Write>(&self, f: &mut fmt::Formatter<W>) -> fmt::Result {
        write!(
            f,
            "refused {} table {}",
            self.question.number(),
            self.subject.number()
        )
    }
}

impl Error for Refusal {}

// The checker of books and questions: what is read, left to right, or the first fault.
// Here: the forms that the modules share. The modules, lowest first: record, term, front, tree, shelf, judge.
// Not here: what a book says and how its bytes are read (specs/Syntax, Record, Reading), what a check answers (specs/Answers).
#![tactic(auto)]

ghost use Rattle.std.specs.Prelude.{◌≡◌};
ghost use Rattle.book.specs.Kinds.{kind_at};

mod front;
mod judge;
mod record;
mod shelf;
mod term;
mod tree;

pub use front::{con_home, type_at};
pub use judge::{check_book, check_question};
pub use record::{fun_tree, rec_at};
pub use shelf::read_book;
pub use term::{con_arity, fun_arity, read_term};

// What is wrong with a record, by the numbers that the programs print.
#[derive(Clone, Copy, PartialEq, Eq)]
pub enum Sort {
    Unknown = 1,
    Cut = 2,
    Range = 3,
    Unexpected = 4,
    End = 5,
}

// The first fault: its sort and its place.
#[derive(Clone, Copy, PartialEq, Eq)]
pub struct Fault {
    pub sort: Sort,
    pub at: usize,
}

impl Fault {
    // A fault of a sort, at a place.
    pub(crate) fn new(sort: Sort, at: usize) -> Fault
        ensures { result ≡ record { sort = sort; at = at } }
    {
        Fault { sort, at }
    }
}

// Why a check refuses: which of the two is at fault.
#[derive(Clone, Copy, PartialEq, Eq)]
pub enum Refusal {
    Book(Fault),
    Question(Fault),
}

// A constructor's number.
#[derive(Clone, Copy, PartialEq, Eq)]
pub struct ConNo(pub u8);

// A function's number.
#[derive(Clone, Copy, PartialEq, Eq)]
pub struct FunNo(pub u8);

// A type's number.
#[derive(Clone, Copy, PartialEq, Eq)]
pub struct TypeNo(pub u8);

// A type: the place of its record, the number of its first constructor, and how many it has.
#[derive(Clone, Copy)]
pub struct TypeInfo {
    pub at: usize,
    pub first: usize,
    pub count: usize,
}

// Where a constructor belongs: its type, and its arm there, from 0.
#[derive(Clone, Copy)]
pub struct Home {
    pub ty: usize,
    pub arm: usize,
}

// A kind of record, by its number in a book or a question.
#[derive(Clone, Copy, PartialEq, Eq)]
pub enum Kind {
    Type = 1,
    Cons = 2,
    Func = 3,
    Split = 4,
    Rule = 5,
    Right = 6,
    Con = 7,
    Call = 8,
    Slot = 9,
    Fresh = 10,
    None = 11,
}

impl Kind {
    // The kind that a byte says, if it is one.
    pub(crate) fn of(byte: u8) -> Option<Kind>
        ensures { result ≡ kind_at byte }
    {
        match byte {
            1 => Some(Kind::Type),
            2 => Some(Kind::Cons),
            3 => Some(Kind::Func),
            4 => Some(Kind::Split),
            5 => Some(Kind::Rule),
            6 => Some(Kind::Right),
            7 => Some(Kind::Con),
            8 => Some(Kind::Call),
            9 => Some(Kind::Slot),
            10 => Some(Kind::Fresh),
            11 => Some(Kind::None),
            _ => None,
        }
    }
}

// A record: kind, body (0 for a byte that it lacks), the place after it.
#[derive(Clone, Copy)]
pub struct Rec {
    pub kind: Kind,
    pub a: u8,
    pub b: u8,
    pub end: usize,
}

// A record of a term: how many terms follow it, and the place after it.
#[derive(Clone, Copy)]
pub struct Args {
    pub count: u8,
    pub end: usize,
}

// The types read: how many, how many constructors they have, and the place after them.
#[derive(Clone, Copy)]
pub struct Types {
    pub types: usize,
    pub cons: usize,
    pub end: usize,
}

// A book that was read: the numbers of its types, constructors and functions.
#[derive(Clone, Copy)]
pub struct Sizes {
    pub types: usize,
    pub cons: usize,
    pub funcs: usize,
}

// The slots of a pattern: the length of each position, 8 for a slot that is split. (An array and a length: the memory is fixed.)
#[derive(Clone, Copy)]
pub struct Slots {
    pub n: usize,
    pub depth: [u8; 64],
}

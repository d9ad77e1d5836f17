// A stream of cases, as the programs over the run read it, and what the engine gives for each.
// Here: the forms that the modules share. The modules, lowest first: passing, stream, whole.
// Not here: the run (crate run), what is printed (crate lines).
#![tactic(auto)]

ghost use Rattle.std.specs.Prelude.{◌<◌};

use run::Limits;

mod passing;
mod stream;
mod whole;

pub use stream::{read_book, read_head, read_question};
pub use whole::{run_case, take_case, work_size};

// What the first pass over a question has seen so far: whole records, and the place after them; or a record that is not whole yet, its place, how many bytes of its body are
// due after the next, and the place after what was passed; or a record of an unknown kind, and its place.
#[derive(Clone, Copy)]
pub enum Passed {
    Whole(usize),
    Begun { at: usize, due: usize, end: usize },
    Lost(usize),
}

// A case's numbers: its limits, the lengths of its book and its question. A question is shorter than a number of four bytes tells.
#[derive(Clone, Copy)]
pub struct Case {
    pub limits: Limits,
    pub book: usize,
    pub question: usize,
    ghost length: { question < 4294967296 },
}

// The next case. Or the stream ends, before a case or inside its numbers.
#[derive(Clone, Copy)]
pub enum Head {
    Is(Case),
    Ended,
    Cut,
}

// A question that was read: how many bytes of what is kept are for the engine, and the first pass over all of it.
#[derive(Clone, Copy)]
pub struct Question {
    pub shown: usize,
    pub pass: Passed,
}

// The run: a book, a question and limits, with three lent memories; the answer, the counts and the results.
// Here: what is lent and given. The modules, lowest first: bounds, steps, loops, asks, tables, setup, whole.
// specs/Given has the contract.
#![tactic(auto)]

use book::Fault;

mod asks;
mod bounds;
mod loops;
mod setup;
mod steps;
mod tables;
mod whole;

pub use whole::run;

// The node limit, the pool limit, the budget, the results room and the code room.
#[derive(Clone, Copy)]
pub struct Limits {
    pub nodes: usize,
    pub pool: usize,
    pub budget: usize,
    pub results: usize,
    pub code: usize,
}

// The pool is empty; the budget is used; the node limit, the pool limit, the results room would be passed; limits or lent memory refused; the book, the question
// refused, with its first fault; the code too long.
#[derive(Clone, Copy)]
pub enum Answer {
    Emptied,
    Spent,
    NoNodes,
    NoPlaces,
    NoRoom,
    BadLimits,
    BadBook(Fault),
    BadQuestion(Fault),
    LongCode,
}

// The answer, the seven counts, and how many bytes of results are written.
#[derive(Clone, Copy)]
pub struct Outcome {
    pub answer: Answer,
    pub turns: usize,
    pub nodes: u64,
    pub begun: usize,
    pub split: usize,
    pub values: usize,
    pub failed: usize,
    pub misfits: usize,
    pub written: usize,
}

// A run between its turns: the front's place and how many wait, the nodes made, the other counts, and how many bytes of results are written.
#[derive(Clone, Copy, Default)]
pub struct State {
    pub head: usize,
    pub waiting: usize,
    pub made: usize,
    pub turns: usize,
    pub begun: usize,
    pub split: usize,
    pub values: usize,
    pub failed: usize,
    pub misfits: usize,
    pub written: usize,
}

// The answer, and the state at which it is given.
#[derive(Clone, Copy)]
pub struct Done {
    pub answer: Answer,
    pub state: State,
}

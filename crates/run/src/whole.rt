// The whole run: a book and a question are checked, the book is compiled, the question is asked.
// Here, in order: a refusal as an answer; a run whose book and question are accepted; a run, done or refused; its outcome; the run.
ghost use Rattle.std.specs.Prelude.{◌≡◌, length};
ghost use Rattle.engine.specs.Run.{machine};
ghost use Rattle.run.specs.Given.{limits_of, lent_of, Gives, Ran};
ghost use Rattle.run.specs.Passed.{Passed, answer_to, answer_for, refused_by, given_by, outcome_of};

use crate::asks::ask;
use crate::bounds::{fit, work_size};
use crate::setup::set_up;
use crate::{Answer, Done, Limits, Outcome, State};
use book::Refusal;
use compiler::Refused;

// The check's refusal: of the book, or of the question.
impl From<Refusal> for Answer {
    ghost from_gives = { λ r a. a ≡ answer_to r };

    fn from(refusal: Refusal) -> Answer {
        match refusal {
            Refusal::Book(fault) => Answer::BadBook(fault),
            Refusal::Question(fault) => Answer::BadQuestion(fault),
        }
    }
}

// The compiler's refusal: the code is too long, or the book is at fault.
impl From<Refused> for Answer {
    ghost from_gives = { λ r a. a ≡ answer_for r };

    fn from(refused: Refused) -> Answer {
        match refused {
            Refused::TooLong(_) => Answer::LongCode,
            Refused::Fault(fault) => Answer::BadBook(fault),
        }
    }
}

// The run of a book and a question that are accepted.
fn run_accepted(
    book: &[u8],
    question: &[u8],
    l: Limits,
    work: &mut [u8],
    code: &mut [u8],
    results: &mut [u8],
) -> Result<Done, Answer>
    requires { Passed l book.now question.now work.old code.old results.old }
    ensures { Gives (machine (limits_of l) (lent_of (length work.old) (length code.old) (length results.old)) book.now question.now) (outcome_of result) work.old work.new code.old code.new results.old results.new }
{
    let n = set_up(book, work, code, l)?;
    Ok(ask(work, &code[..n], results, l, question))
}

// What is refused is refused in this order, and writes nothing: limits or lent memory, the book, the question, the code's length.
// Of work memory only as much as is asked is lent on.
fn run_checked(
    book: &[u8],
    question: &[u8],
    limits: Limits,
    work: &mut [u8],
    code: &mut [u8],
    results: &mut [u8],
) -> Result<Done, Answer>
    ensures { Ran limits book.now question.now (outcome_of result) work.old work.new code.old code.new results.old results.new }
{
    if !fit(limits, work.len(), code.len(), results.len()) {
        return Err(Answer::BadLimits);
    }
    book::check_question(book, question)?;
    let size = work_size(limits);
    run_accepted(book, question, limits, &mut work[..size], code, results)
}

// The answer, and the counts of the state at which it is given.
fn give(d: Done) -> Outcome
    ensures { result ≡ given_by d }
{
    let st = d.state;
    Outcome {
        answer: d.answer,
        turns: st.turns,
        nodes: st.made as u64,
        begun: st.begun,
        split: st.split,
        values: st.values,
        failed: st.failed,
        misfits: st.misfits,
        written: st.written,
    }
}

// A refusal: every count 0.
fn refuse(answer: Answer) -> Outcome
    ensures { result ≡ refused_by answer }
{
    give(Done {
        answer,
        state: State::default(),
    })
}

// The run: what is given of a run that is done, or of a refusal.
pub fn run(
    book: &[u8],
    question: &[u8],
    limits: Limits,
    work: &mut [u8],
    code: &mut [u8],
    results: &mut [u8],
) -> Outcome
    ensures { Ran limits book.now question.now result work.old work.new code.old code.new results.old results.new }
{
    match run_checked(book, question, limits, work, code, results) {
        Ok(done) => give(done),
        Err(answer) => refuse(answer),
    }
}

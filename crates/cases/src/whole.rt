// What the engine gives for a case of which a part is kept.
// Here, in order: an answer by the first pass over all of the question; the run of a case; the work memory that limits ask; a case read and run.
// Not here: why this is what the engine would give for all of it (proofs/Cases).
//
// What the engine is not shown. Of a book over 32,768 bytes it sees 32,769 or more: the answer depends only on the length being over 32,768. Of a question that is longer than
// what is kept it sees the whole records there, and the rest is looked at as it passes: the first pass decides by an unknown kind or a cut body anywhere, and where it finds
// none, the reading stops at a fault in the first 768 bytes, since a RIGHT and its term have no more and nothing may follow them.
ghost use Rattle.std.specs.Prelude.{◌≡◌, ◌≤◌, ◌<◌, length, IfOk, OnErr};
ghost use Rattle.engine.specs.Run.{work_size};
ghost use Rattle.run.specs.Given.{answer_is, limits_of};
ghost use Rattle.cases.specs.Parts.{found};
ghost use Rattle.cases.specs.Whole.{first, settled, CaseRan, TakenIs};
ghost use Rattle.input.specs.Reading.{Lost};

use crate::stream::{read_book, read_question};
use crate::{Case, Passed};
use book::{Fault, Sort};
use run::{Answer, Limits, Outcome};
use std::io;
use std::io::Read;

// A question's fault: that of the first pass over all of it, if there is one.
#[tactic(auto, unfolding(crate::specs::Whole::first, crate::specs::Parts::found, run::specs::Given::answer_is))]
fn first_fault(p: Passed, f: Fault) -> Answer
    ensures { answer_is result ≡ first (found p) f.sort f.at }
{
    match p {
        Passed::Whole(_) => Answer::BadQuestion(f),
        Passed::Begun { at, .. } => Answer::BadQuestion(Fault {
            sort: Sort::Cut,
            at,
        }),
        Passed::Lost(at) => Answer::BadQuestion(Fault {
            sort: Sort::Unknown,
            at,
        }),
    }
}

// An answer, by the first pass over all of the question.
#[tactic(auto, unfolding(crate::specs::Whole::settled, run::specs::Given::answer_is))]
fn settle(a: Answer, p: Passed) -> Answer
    ensures { answer_is result ≡ settled (found p) (answer_is a) }
{
    match a {
        Answer::BadQuestion(f) => first_fault(p, f),
        _ => a,
    }
}

// The run of a case, of which this book and this question are kept: the outcome that the run has for all of it.
pub fn run_case(
    l: Limits,
    book: &[u8],
    question: &[u8],
    p: Passed,
    work: &mut [u8],
    code: &mut [u8],
    results: &mut [u8],
) -> Outcome
    ensures { CaseRan l book.now question.now p result work.old work.new code.old code.new results.old results.new }
{
    let o = run::run(book, question, l, work, code, results);
    Outcome {
        answer: settle(o.answer, p),
        ..o
    }
}

// The work memory that limits ask; for limits out of range, which are refused whatever is lent, no more than the largest ask.
#[tactic(auto, unfolding(engine::specs::Run::work_size))]
pub fn work_size(l: Limits) -> usize
    ensures { (l.nodes ≤ 16384) × (l.pool ≤ 1024) → result ≡ work_size (limits_of l) }
{
    40 * l.nodes.min(16384) + 40 * l.pool.min(1024) + 8192
}

// A case read and run; None where the stream ends inside it. An error is the reader's: nothing was run.
pub fn take_case<R: Read>(
    input: &mut R,
    case: Case,
    book: &mut [u8],
    question: &mut [u8],
    work: &mut [u8],
    code: &mut [u8],
    results: &mut [u8],
) -> io::Result<Option<Outcome>>
    requires { (32769 ≤ length book.old) × (771 ≤ length question.old) }
    ensures taken { IfOk result (λ t. TakenIs case t work.old work.new code.old code.new results.old results.new) }
    ensures err { OnErr result ((work.new ≡ work.old) × (code.new ≡ code.old) × (results.new ≡ results.old)) }
    ensures lost { Lost (R.remaining input.old) (R.remaining input.new) }
{
    if !read_book(input, case.book, book)? {
        return Ok(None);
    }
    let Some(asked) = read_question(input, case.question, question)? else {
        return Ok(None);
    };
    let m = case.book.min(book.len());
    Ok(Some(run_case(
        case.limits,
        &book[..m],
        &question[..asked.shown],
        asked.pass,
        work,
        code,
        results,
    )))
}

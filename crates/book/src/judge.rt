// The two public checks.
// Here, in order: a question; the book check and the question check.
// Not here: reading (the other modules), the paper's numbers (specs/Answers).
ghost use Rattle.std.specs.Prelude.{◌≡◌};
ghost use Rattle.book.specs.Reading.{read_alone};
ghost use Rattle.book.specs.Answers.{check_book, check_question};
ghost use Rattle.book.specs.Steps.{step};

use crate::record::whole;
use crate::shelf::read_book;
use crate::term::read_right;
use crate::{Fault, Refusal, Sort};

// A question, over the arities of a book's constructors and functions.
pub fn read_question(q: &[u8], cons: &[u8], funcs: &[u8]) -> Result<usize, Fault>
    ensures { result ≡ step (read_alone cons.now funcs.now q.now) }
{
    whole(q)?;
    let e = read_right(q, cons, funcs, None, 0)?;
    if e < q.len() {
        return Err(Fault::new(Sort::End, e));
    }
    Ok(e)
}

// The book check.
pub fn check_book(book: &[u8]) -> Result<(), Refusal>
    ensures { result ≡ check_book book.now }
{
    let mut cons = [0u8; 256];
    let mut funcs = [0u8; 256];
    read_book(book, &mut cons, &mut funcs).map_err(Refusal::Book)?;
    Ok(())
}

// The question check: the book is judged first.
pub fn check_question(book: &[u8], question: &[u8]) -> Result<(), Refusal>
    ensures { result ≡ check_question book.now question.now }
{
    let mut cons = [0u8; 256];
    let mut funcs = [0u8; 256];
    let b = read_book(book, &mut cons, &mut funcs).map_err(Refusal::Book)?;
    read_question(question, &cons[..b.cons], &funcs[..b.funcs]).map_err(Refusal::Question)?;
    Ok(())
}

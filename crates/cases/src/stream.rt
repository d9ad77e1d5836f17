// A case's bytes, read from a stream.
// Here, in order: its numbers; a book; a question, of which the rest is looked at as it passes.
// Not here: the first pass (passing), the run (whole). No contract can say what standard input gives.
// Whatever a reading answers, the input has lost some bytes at its front, and nothing else.
//
// A case: seven 4-byte little-endian numbers (nodes, pool, budget, results room, code room, book length, question length), the book, the question.
ghost use Rattle.std.specs.Prelude.{◌≡◌, ◌≤◌, ◌<◌, ◌+◌, length, IfOk};
ghost use Rattle.cases.specs.Parts.{reach};
ghost use Rattle.cases.specs.Whole.{HeadIs, whole_part, RestIs, PartOf, QuestionIs};
ghost use Rattle.input.specs.Reading.{Lost};

use crate::passing::pass_part;
use crate::{Case, Head, Passed, Question};
use input::{read_full, skip};
use run::Limits;
use std::io;
use std::io::Read;

// Four bytes, from the k-th on, as a number.
fn number(head: &[u8; 28], k: usize) -> usize
    requires { k ≤ 24 }
    ensures { result < 4294967296 }
{
    u32::from_le_bytes([head[k], head[k + 1], head[k + 2], head[k + 3]]) as usize
}

// The case of these first bytes.
fn case_of(head: &[u8; 28]) -> Case
    ensures { result.book < 4294967296 }
{
    Case {
        limits: Limits {
            nodes: number(head, 0),
            pool: number(head, 4),
            budget: number(head, 8),
            results: number(head, 12),
            code: number(head, 16),
        },
        book: number(head, 20),
        question: number(head, 24),
    }
}

// The next case's numbers.
#[tactic(auto, unfolding(crate::specs::Whole::HeadIs))]
pub fn read_head<R: Read>(input: &mut R) -> io::Result<Head>
    ensures read { IfOk result HeadIs }
    ensures lost { Lost (R.remaining input.old) (R.remaining input.new) }
{
    let mut head = [0u8; 28];
    let n = read_full(input, &mut head)?;
    Ok(match n {
        0 => Head::Ended,
        28 => Head::Is(case_of(&head)),
        _ => Head::Cut,
    })
}

// Reads a book of b bytes, of which it keeps what there is room for; whether there are as many.
pub fn read_book<R: Read>(input: &mut R, b: usize, book: &mut [u8]) -> io::Result<bool>
    ensures lost { Lost (R.remaining input.old) (R.remaining input.new) }
{
    let m = b.min(book.len());
    let got = read_full(input, &mut book[..m])?;
    if got < m {
        return Ok(false);
    }
    skip(input, b - m)
}

// Passes over n bytes of a question, its first pass going on over them; None where the stream ends inside them.
fn pass_rest<R: Read>(input: &mut R, p: Passed, n: usize) -> io::Result<Option<Passed>>
    requires { reach p + n < 18446744073709551616 }
    ensures read { IfOk result (RestIs p n) }
    ensures lost { Lost (R.remaining input.old) (R.remaining input.new) }
{
    let mut chunk = [0u8; 4096];
    let mut so_far = p;
    let mut left = n;
    while left > 0 {
        let m = left.min(chunk.len());
        let got = read_full(input, &mut chunk[..m])?;
        if got == 0 {
            return Ok(None);
        }
        so_far = pass_part(so_far, &chunk[..got]);
        left -= got;
    }
    Ok(Some(so_far))
}

// Of a part's m bytes, by the first pass over it, how many are no record that goes on behind it.
#[tactic(auto, unfolding(crate::specs::Whole::whole_part))]
fn whole_part(p: Passed, m: usize) -> usize
    ensures { result ≡ whole_part p m }
{
    match p {
        Passed::Begun { at, .. } => at,
        _ => m,
    }
}

// A question of q bytes, of which a part was read: looks at the rest; None where the stream ends inside it.
fn look_on<R: Read>(input: &mut R, part: &[u8], q: usize) -> io::Result<Option<Question>>
    requires { PartOf part.now q }
    ensures read { IfOk result (QuestionIs part.now q) }
    ensures lost { Lost (R.remaining input.old) (R.remaining input.new) }
{
    let m = part.len();
    let pass = pass_part(Passed::Whole(0), part);
    if m == q {
        return Ok(Some(Question { shown: m, pass }));
    }
    let Some(all) = pass_rest(input, pass, q - m)? else {
        return Ok(None);
    };
    Ok(Some(Question {
        shown: whole_part(pass, m),
        pass: all,
    }))
}

// Reads a question of q bytes, of which it keeps what there is room for; None where the stream ends inside it.
pub fn read_question<R: Read>(
    input: &mut R,
    q: usize,
    question: &mut [u8],
) -> io::Result<Option<Question>>
    requires { (771 ≤ length question.old) × (q < 4294967296) }
    ensures read { IfOk result (QuestionIs question.new q) }
    ensures lost { Lost (R.remaining input.old) (R.remaining input.new) }
{
    let m = q.min(question.len());
    let got = read_full(input, &mut question[..m])?;
    if got < m {
        return Ok(None);
    }
    look_on(input, &question[..m], q)
}

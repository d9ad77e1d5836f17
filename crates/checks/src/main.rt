// The two checks on a stream of cases from standard input, a line for each case.
// Here, in order: what is printed of a verdict; a case's bytes; a case; all of them.
// Not here: the checks (crate book). No contract can say what standard input gives or standard output takes.
//
// A case: the book's length and the question's (4 bytes each, little-endian), the book, the question.
// Its line: number, place and sort of the book check, then of the question check; `14 0 0 14 0 0` for a length above 65,536.
#![tactic(auto)]

ghost use Rattle.std.specs.Prelude.{◌≡◌};
ghost use Rattle.book.specs.Answers.{told_of};
ghost use Rattle.checks.specs.Line.{answer_of, place_of};

use book::Refusal;
use input::{read_full, skip};
use std::io;
use std::io::{Read, Write};

// What is kept of a case.
#[derive(Drop)]
struct Kept {
    book: [u8; 65536],
    question: [u8; 65536],
}

// The paper's number of a verdict.
#[tactic(auto, unfolding(book::specs::Answers::told_of))]
fn answer(v: Result<(), Refusal>) -> u64
    ensures { result ≡ answer_of (told_of v) }
{
    match v {
        Ok(()) => 0,
        Err(Refusal::Book(_)) => 11,
        Err(Refusal::Question(_)) => 12,
    }
}

// The place that a verdict gives.
#[tactic(auto, unfolding(book::specs::Answers::told_of))]
fn place(v: Result<(), Refusal>) -> usize
    ensures { result ≡ place_of (told_of v) }
{
    match v {
        Ok(()) => 0,
        Err(Refusal::Book(f) | Refusal::Question(f)) => f.at,
    }
}

// The sort of fault of a verdict, by number; 0 where there is none.
fn sort(v: Result<(), Refusal>) -> u64 {
    match v {
        Ok(()) => 0,
        Err(Refusal::Book(f) | Refusal::Question(f)) => f.sort as u64,
    }
}

// A verdict: number, place, sort.
fn print<W: Write>(out: &mut W, v: Result<(), Refusal>) -> io::Result<()> {
    write!(out, "{} {} {}", answer(v), place(v), sort(v))
}

// Both checks of a case.
fn judge<W: Write>(out: &mut W, book: &[u8], question: &[u8]) -> io::Result<()> {
    print(out, book::check_book(book))?;
    out.write_all(b" ")?;
    print(out, book::check_question(book, question))?;
    out.write_all(b"\n")
}

// A case that is too long.
fn refuse<R: Read, W: Write>(input: &mut R, out: &mut W, b: usize, q: usize) -> io::Result<bool> {
    skip(input, b)?;
    skip(input, q)?;
    out.write_all(b"14 0 0 14 0 0\n")?;
    Ok(true)
}

// A stream that ends inside a case.
fn cut<W: Write>(out: &mut W) -> io::Result<bool> {
    out.write_all(b"14 0 0 14 0 0\n")?;
    Ok(false)
}

// One case with bytes of these lengths; whether to go on.
fn answer_one<R: Read, W: Write>(
    input: &mut R,
    out: &mut W,
    kept: &mut Kept,
    b: usize,
    q: usize,
) -> io::Result<bool> {
    if kept.book.len() < b || kept.question.len() < q {
        return refuse(input, out, b, q);
    }
    let book = &mut kept.book[..];
    let question = &mut kept.question[..];
    let gb = read_full(input, &mut book[..b])?;
    let gq = read_full(input, &mut question[..q])?;
    if gb < b || gq < q {
        return cut(out);
    }
    judge(out, &book[..b], &question[..q])?;
    Ok(true)
}

// The next case; whether there was one.
fn next<R: Read, W: Write>(input: &mut R, out: &mut W, kept: &mut Kept) -> io::Result<bool> {
    let mut head = [0u8; 8];
    let n = read_full(input, &mut head)?;
    if n == 0 {
        return Ok(false);
    }
    if n < 8 {
        return cut(out);
    }
    let b = u32::from_le_bytes([head[0], head[1], head[2], head[3]]) as usize;
    let q = u32::from_le_bytes([head[4], head[5], head[6], head[7]]) as usize;
    answer_one(input, out, kept, b, q)
}

// All cases: a number of turns that no run uses up, since nothing says that the input ends.
fn main(rt: HostRuntime) -> io::Result<()> {
    let mut input = rt.reader();
    let mut out = io::writer(&rt);
    let mut kept = Kept {
        book: [0; 65536],
        question: [0; 65536],
    };
    for _ in 0..u64::MAX {
        if !next(&mut input, &mut out, &mut kept)? {
            break;
        }
    }
    Ok(())
}

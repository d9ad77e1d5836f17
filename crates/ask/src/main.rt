// The program of document 01: one book and one question from standard input, two lines to standard output.
// Here, in order: the limits; the two lines; the input taken apart; the program.
// Not here: the run (crate run), how an outcome is printed (crate lines). No contract can say what standard input gives or standard output takes.
//
// The input: the book's length (2 bytes, little-endian), the book, the question.
// Line one: the answer, the place, the seven counts. Line two: the results in lower-case hex. Input under 2 bytes, over 33,282 or shorter than the book it announces
// is answered 14, the rest 0, line two empty: a buffer of one byte more than 33,282 tells.
#![tactic(auto)]

use input::read_full;
use run::{Limits, Outcome};
use std::io;
use std::io::Write;

// The limits of document 01's program.
fn limits() -> Limits {
    Limits {
        nodes: 1600,
        pool: 64,
        budget: 10000,
        results: 4096,
        code: 16384,
    }
}

// Both lines of an outcome.
fn print<W: Write>(out: &mut W, o: Outcome, results: &[u8]) -> io::Result<()> {
    lines::print_told(out, o)?;
    out.write_all(b"\n")?;
    if o.written <= results.len() {
        lines::print_hex(out, &results[..o.written])?;
    }
    out.write_all(b"\n")
}

// Both lines of an input that is no case.
fn refuse<W: Write>(out: &mut W) -> io::Result<()> {
    out.write_all(b"14 0 0 0 0 0 0 0 0\n\n")
}

// The run of a question: work memory is 40 x 1,600 + 40 x 64 + 8,192 bytes.
fn judge<W: Write>(out: &mut W, book: &[u8], question: &[u8]) -> io::Result<()> {
    let mut work = [0u8; 74752];
    let mut code = [0u8; 16384];
    let mut results = [0u8; 4096];
    let o = run::run(book, question, limits(), &mut work, &mut code, &mut results);
    print(out, o, &results)
}

// The book of this length and the question after it.
fn divide<W: Write>(out: &mut W, b: usize, rest: &[u8]) -> io::Result<()> {
    if rest.len() < b {
        return refuse(out);
    }
    judge(out, &rest[..b], &rest[b..])
}

// All of the input.
fn answer<W: Write>(out: &mut W, input: &[u8]) -> io::Result<()> {
    let [low, high, rest @ ..] = input else {
        return refuse(out);
    };
    if 33282 < input.len() {
        return refuse(out);
    }
    let b = u16::from_le_bytes([*low, *high]) as usize;
    divide(out, b, rest)
}

// The input's bytes, and one more where there is one.
fn main(rt: HostRuntime) -> io::Result<()> {
    let mut input = [0u8; 33283];
    let n = read_full(&mut rt.reader(), &mut input)?;
    answer(&mut io::writer(&rt), &input[..n])
}

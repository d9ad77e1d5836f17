// A shelf of cases from standard input, a line for each: how a second interpreter is run against ours.
// Here, in order: the memories; a case's line; a case, with the memory lent; all cases.
// Not here: how a case is read and what of it the engine sees (crate cases), how an outcome is printed (crate lines). No contract can say what standard input gives or standard output takes.
//
// A case: seven 4-byte little-endian numbers (nodes, pool, budget, results room, code room, book length, question length), the book, the question.
// Its line: answer, place, the seven counts, then the results in lower-case hex or `-` if there are none. A stream cut inside a case ends with `14 0 0 0 0 0 0 0 0 -`.
#![tactic(auto)]

ghost use Rattle.std.specs.Prelude.{◌≡◌, ◌≤◌, min};

use cases::{Case, Head};
use run::{Limits, Outcome};
use std::io;
use std::io::{Read, Write};

// What is kept of a case, and what a run is lent of. Of a book one byte more than an accepted one has is kept, and of a question 1,048,576; the others are the largest that
// limits in range ask.
#[derive(Drop)]
struct Memories {
    book: [u8; 32769],
    question: [u8; 1048576],
    work: [u8; 704512],
    code: [u8; 262144],
    results: [u8; 65536],
}

// How many bytes of each memory are lent.
#[derive(Clone, Copy)]
struct Lent {
    work: usize,
    code: usize,
    results: usize,
}

// Of each memory what the limits ask, or all there is.
fn to_lend(l: Limits) -> Lent
    ensures work { result.work ≤ 704512 }
    ensures code { result.code ≡ min l.code 262144 }
    ensures results { result.results ≡ min l.results 65536 }
{
    Lent {
        work: cases::work_size(l).min(704512),
        code: l.code.min(262144),
        results: l.results.min(65536),
    }
}

// The results in hex, or `-`.
fn print_results<W: Write>(out: &mut W, results: &[u8]) -> io::Result<()> {
    if results.is_empty() {
        return out.write_all(b"-");
    }
    lines::print_hex(out, results)
}

// The line of an outcome.
fn print<W: Write>(out: &mut W, o: Outcome, results: &[u8]) -> io::Result<()> {
    let n = o.written.min(results.len());
    lines::print_told(out, o)?;
    out.write_all(b" ")?;
    print_results(out, &results[..n])?;
    out.write_all(b"\n")
}

// A stream that ends inside a case.
fn cut<W: Write>(out: &mut W) -> io::Result<bool> {
    out.write_all(b"14 0 0 0 0 0 0 0 0 -\n")?;
    Ok(false)
}

// A case, lent of each memory what its limits ask, or all there is; whether to go on.
fn answer<R: Read, W: Write>(
    input: &mut R,
    out: &mut W,
    case: Case,
    m: &mut Memories,
) -> io::Result<bool> {
    let lent = to_lend(case.limits);
    let work = &mut m.work[..];
    let code = &mut m.code[..];
    let results = &mut m.results[..];
    let taken = cases::take_case(
        input,
        case,
        &mut m.book,
        &mut m.question,
        &mut work[..lent.work],
        &mut code[..lent.code],
        &mut results[..lent.results],
    )?;
    let Some(o) = taken else {
        return cut(out);
    };
    print(out, o, &m.results)?;
    Ok(true)
}

// The next case; whether to go on.
fn next<R: Read, W: Write>(input: &mut R, out: &mut W, m: &mut Memories) -> io::Result<bool> {
    match cases::read_head(input)? {
        Head::Is(case) => answer(input, out, case, m),
        Head::Ended => Ok(false),
        Head::Cut => cut(out),
    }
}

// All cases: a number of turns that no run uses up, since nothing says that the input ends.
fn main(rt: HostRuntime) -> io::Result<()> {
    let mut input = rt.reader();
    let mut out = io::writer(&rt);
    let mut m = Memories {
        book: [0; 32769],
        question: [0; 1048576],
        work: [0; 704512],
        code: [0; 262144],
        results: [0; 65536],
    };
    for _ in 0..u64::MAX {
        if !next(&mut input, &mut out, &mut m)? {
            break;
        }
    }
    Ok(())
}

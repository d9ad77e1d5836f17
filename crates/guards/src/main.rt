// A shelf of cases from standard input, each run on slices that lie in the middle of larger memories: a line for each, `ok` or what was touched and should not have been.
// Here, in order: the memories; the run between guards; a case; all cases. The modules, lowest first: marks, leaves.
// Not here: the stream (crate cases), the run (crate run). That nothing else is touched is proved; here it is seen from outside. No contract can say what standard input gives or standard output takes.
//
// A line that is not `ok` names one thing after the other and ends with `touched`: bytes before or after a lent slice (`work before; `, `code after; `, ..); bytes of a lent memory that
// a refusal changed (`work refused; `, ..); code bytes that are not the compiled code (`code; `) or lie beyond it (`code rest; `); result bytes beyond those written
// (`results rest; `); a book or a question that is not as it was read (`book; `, `question; `). A stream cut inside a case ends with `cut`.
#![tactic(auto)]

ghost use Rattle.std.specs.Prelude.{◌≤◌, length};

use cases::{Case, Head, Passed};
use leaves::{check_all, say};
use marks::Guarded;
use run::{Limits, Outcome};
use std::io;
use std::io::{Read, Write};

mod leaves;
mod marks;

// What is kept of a case.
#[derive(Clone, Copy)]
struct Kept {
    book: [u8; 32769],
    question: [u8; 65536],
}

// What a run is lent of: the largest that limits in range ask, and 128 bytes.
#[derive(Drop)]
pub struct Memories {
    pub work: Guarded<704640>,
    pub code: Guarded<262272>,
    pub results: Guarded<65664>,
}

// A case of which this is kept, run on the middle of each memory.
fn run_between(l: Limits, book: &[u8], question: &[u8], p: Passed, m: &mut Memories) -> Outcome {
    m.work.lend(cases::work_size(l));
    m.code.lend(l.code);
    m.results.lend(l.results);
    cases::run_case(
        l,
        book,
        question,
        p,
        m.work.middle(),
        m.code.middle(),
        m.results.middle(),
    )
}

// The end of a case's line.
fn finish<W: Write>(out: &mut W, fine: bool) -> io::Result<bool> {
    if fine {
        out.write_all(b"ok\n")?;
    } else {
        out.write_all(b"touched\n")?;
    }
    Ok(true)
}

// A stream that ends inside a case.
fn cut<W: Write>(out: &mut W) -> io::Result<bool> {
    out.write_all(b"cut\n")?;
    Ok(false)
}

// One case; whether to go on.
fn answer<R: Read, W: Write>(
    input: &mut R,
    out: &mut W,
    case: Case,
    kept: &mut Kept,
    m: &mut Memories,
) -> io::Result<bool> {
    if !cases::read_book(input, case.book, &mut kept.book)? {
        return cut(out);
    }
    let Some(asked) = cases::read_question(input, case.question, &mut kept.question)? else {
        return cut(out);
    };
    let was = *kept;
    let book = &kept.book[..case.book.min(32769)];
    let question = &kept.question[..asked.shown];
    let o = run_between(case.limits, book, question, asked.pass, m);
    let a = check_all(out, book, m, o)?;
    let b = say(out, book == &was.book[..book.len()], b"book; ")?;
    let c = say(
        out,
        question == &was.question[..question.len()],
        b"question; ",
    )?;
    finish(out, a && b && c)
}

// The next case; whether to go on.
fn next<R: Read, W: Write>(
    input: &mut R,
    out: &mut W,
    kept: &mut Kept,
    m: &mut Memories,
) -> io::Result<bool> {
    match cases::read_head(input)? {
        Head::Is(case) => answer(input, out, case, kept, m),
        Head::Ended => Ok(false),
        Head::Cut => cut(out),
    }
}

// All cases: a number of turns that no run uses up, since nothing says that the input ends.
fn main(rt: HostRuntime) -> io::Result<()> {
    let mut input = rt.reader();
    let mut out = io::writer(&rt);
    let mut kept = Kept {
        book: [0; 32769],
        question: [0; 65536],
    };
    let mut m = Memories {
        work: Guarded::new(),
        code: Guarded::new(),
        results: Guarded::new(),
    };
    for _ in 0..u64::MAX {
        if !next(&mut input, &mut out, &mut kept, &mut m)? {
            break;
        }
    }
    Ok(())
}

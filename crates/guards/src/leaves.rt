// What a run leaves, checked: each memory lent with 64 bytes on both sides, all of it filled before.
// Here, in order: what is named; one memory's guards and its lent bytes; the code; a refusal; another run; all of it.
// Not here: the memories (marks), the run (main).
ghost use Rattle.std.specs.Prelude.{◌≡◌, ◌≤◌, length, IfOk, IsOk, IsTrue};

use crate::Memories;
use crate::marks::Guarded;
use run::Outcome;
use std::io;
use std::io::Write;

// Names what is not as it should be; whether all is.
pub fn say<W: Write>(out: &mut W, fine: bool, what: &[u8]) -> io::Result<bool>
    ensures told { IfOk result (λ b. b ≡ fine) }
    ensures silent { IsTrue fine → IsOk result }
{
    if fine {
        return Ok(true);
    }
    out.write_all(what)?;
    Ok(false)
}

// Whether the 64 bytes before and the 64 after a memory's lent bytes are as they were filled.
fn check_sides<W: Write, const N: usize>(
    out: &mut W,
    mem: &Guarded<N>,
    before: &[u8],
    after: &[u8],
) -> io::Result<bool> {
    let n = mem.lent;
    let a = say(out, mem.intact(0, 64), before)?;
    let b = say(out, mem.intact(64 + n, 128 + n), after)?;
    Ok(a && b)
}

// Whether a memory's lent bytes are as they were filled, from the k-th on.
fn check_from<W: Write, const N: usize>(
    out: &mut W,
    mem: &Guarded<N>,
    k: usize,
    what: &[u8],
) -> io::Result<bool>
    requires { k ≤ mem.now.lent }
{
    say(out, mem.intact(64 + k, 64 + mem.lent), what)
}

// Whether what is lent of code memory is this code, and beyond it as it was filled.
fn check_written<W: Write, const N: usize>(
    out: &mut W,
    own: &[u8],
    code: &Guarded<N>,
) -> io::Result<bool> {
    let n = own.len();
    if code.lent < n {
        return say(out, false, b"code; ");
    }
    let all = &code.bytes[..];
    let a = say(out, own == &all[64..64 + n], b"code; ")?;
    let b = check_from(out, code, n, b"code rest; ")?;
    Ok(a && b)
}

// The same, the code compiled here once more.
fn check_code<W: Write, const N: usize>(
    out: &mut W,
    book: &[u8],
    code: &Guarded<N>,
) -> io::Result<bool> {
    let mut tables = [0u8; 4096];
    let mut own = [0u8; 262144];
    let r = compiler::compile_into(book, &mut tables, &mut own, 262144);
    match r {
        Ok(n) => {
            let own = &own[..n];
            check_written(out, own, code)
        }
        Err(_) => say(out, false, b"code; "),
    }
}

// What a refusal leaves: every lent byte.
fn check_refused<W: Write>(out: &mut W, m: &Memories) -> io::Result<bool> {
    let a = check_from(out, &m.work, 0, b"work refused; ")?;
    let b = check_from(out, &m.code, 0, b"code refused; ")?;
    let c = check_from(out, &m.results, 0, b"results refused; ")?;
    Ok(a && b && c)
}

// What another run leaves: the code's bytes, result bytes beyond those written.
fn check_run<W: Write>(out: &mut W, book: &[u8], m: &Memories, written: usize) -> io::Result<bool> {
    let a = check_code(out, book, &m.code)?;
    let n = written.min(m.results.lent);
    let b = check_from(out, &m.results, n, b"results rest; ")?;
    Ok(a && b)
}

// What lies before and after each lent slice.
fn check_guards<W: Write>(out: &mut W, m: &Memories) -> io::Result<bool> {
    let a = check_sides(out, &m.work, b"work before; ", b"work after; ")?;
    let b = check_sides(out, &m.code, b"code before; ", b"code after; ")?;
    let c = check_sides(out, &m.results, b"results before; ", b"results after; ")?;
    Ok(a && b && c)
}

// All of what a run leaves.
pub fn check_all<W: Write>(out: &mut W, book: &[u8], m: &Memories, o: Outcome) -> io::Result<bool> {
    let a = check_guards(out, m)?;
    let b = if 10 <= lines::number(o.answer) {
        check_refused(out, m)?
    } else {
        check_run(out, book, m, o.written)?
    };
    Ok(a && b)
}

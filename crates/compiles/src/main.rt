// The compiler on a stream of books from standard input, a line for each book.
// Here, in order: the memories; what is printed of a book; a book's bytes; all of them.
// Not here: the compiler (crate compiler), bytes in hex (crate lines). No contract can say what standard input gives or standard output takes.
//
// A case: the book's length (4 bytes, little-endian), the book.
// Its line: `0 0 LENGTH HEX`, the code's length and bytes, `-` where there are none or more than 262,144; `11 PLACE 0 -` for a book at fault.
#![tactic(auto)]

ghost use Rattle.std.specs.Prelude.{◌≤◌};

use compiler::Refused;
use input::{read_full, skip};
use std::io;
use std::io::{Read, Write};

// What is kept of a book, and what the compiler writes.
#[derive(Drop)]
struct Memories {
    book: [u8; 65536],
    tables: [u8; 4096],
    code: [u8; 262144],
}

// The code's length and bytes.
fn print_code<W: Write>(out: &mut W, code: &[u8]) -> io::Result<()> {
    write!(out, "0 0 {} ", code.len())?;
    if code.is_empty() {
        out.write_all(b"-")?;
    }
    lines::print_hex(out, code)?;
    out.write_all(b"\n")
}

// A line with no bytes of code.
fn print_none<W: Write>(out: &mut W, answer: u64, place: usize, long: usize) -> io::Result<()> {
    writeln!(out, "{answer} {place} {long} -")
}

// The book of b bytes compiled.
fn compile_one<W: Write>(out: &mut W, m: &mut Memories, b: usize) -> io::Result<()>
    requires { b ≤ 65536 }
{
    let r = compiler::compile_into(&m.book[..b], &mut m.tables, &mut m.code, 262144);
    match r {
        Ok(n) => print_code(out, &m.code[..n]),
        Err(Refused::TooLong(n)) => print_none(out, 0, 0, n),
        Err(Refused::Fault(f)) => print_none(out, 11, f.at, 0),
    }
}

// A book that is longer than any.
fn too_long<R: Read, W: Write>(input: &mut R, out: &mut W, b: usize) -> io::Result<bool> {
    skip(input, b)?;
    print_none(out, 11, 32768, 0)?;
    Ok(true)
}

// A stream that ends inside a case.
fn cut<W: Write>(out: &mut W) -> io::Result<bool> {
    print_none(out, 14, 0, 0)?;
    Ok(false)
}

// The next book; whether there was one.
fn next<R: Read, W: Write>(input: &mut R, out: &mut W, m: &mut Memories) -> io::Result<bool> {
    let mut head = [0u8; 4];
    let n = read_full(input, &mut head)?;
    if n == 0 {
        return Ok(false);
    }
    if n < 4 {
        return cut(out);
    }
    let b = u32::from_le_bytes(head) as usize;
    if m.book.len() < b {
        return too_long(input, out, b);
    }
    let book = &mut m.book[..];
    let got = read_full(input, &mut book[..b])?;
    if got < b {
        return cut(out);
    }
    compile_one(out, m, b)?;
    Ok(true)
}

// All books: a number of turns that no run uses up, since nothing says that the input ends.
fn main(rt: HostRuntime) -> io::Result<()> {
    let mut input = rt.reader();
    let mut out = io::writer(&rt);
    let mut m = Memories {
        book: [0; 65536],
        tables: [0; 4096],
        code: [0; 262144],
    };
    for _ in 0..u64::MAX {
        if !next(&mut input, &mut out, &mut m)? {
            break;
        }
    }
    Ok(())
}

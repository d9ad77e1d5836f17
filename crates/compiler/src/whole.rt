// The whole book: its functions in order, its tables, and the compiler's answer.
// Here, in order: the functions; an accepted book; any book.
// Not here: the length (length), the lore (survey), a tree (tree).
ghost use Rattle.std.specs.Prelude.{◌≡◌, [], ◌≤◌, length};
ghost use Rattle.mem.specs.Words.{words};
ghost use Rattle.engine.specs.Compile.{compile};
ghost use Rattle.compiler.specs.Rows.{row, load_body};
ghost use Rattle.compiler.specs.Tables.{BookDone, BookKnown, CompiledIs};
ghost use Rattle.compiler.specs.Here.{FuncsHere, FuncsDone};

use crate::length::code_length;
use crate::position::grow;
use crate::survey::{front_at, survey};
use crate::tables::{note_cons, note_funs, note_start};
use crate::tree::compile_tree;
use crate::{Lore, Refused};

// The functions' code, each compiled in the part of the book that starts at its tree.
fn compile_funcs(
    book: &[u8],
    lore: &Lore,
    rows: &mut [u8; 2304],
    from: usize,
    tables: &mut [u8],
    code: &mut [u8],
)
    requires { FuncsHere book.now lore.now rows.old (words tables.old) from code.old }
    ensures { (x : FuncsHere book.now lore.now rows.old (words tables.old) from code.old) → FuncsDone x (words tables.new) code.new }
{
    let mut at = from;
    let mut out = 0;
    let mut f = 0;
    while at < book.len() {
        let a = book[at + 1] as usize;
        let k = at + 2;
        note_start(tables, f, out);
        grow(rows, 255, 0, a);
        let e = compile_tree(&book[k..], lore, rows, a, 0, code, out);
        at = k + e.at;
        out = e.out;
        f += 1;
    }
}

// An accepted book compiled: its code and the machine's tables. Row 255 is the empty position.
fn compile_book(book: &[u8], lore: &Lore, rows: &mut [u8; 2304], tables: &mut [u8], code: &mut [u8])
    requires book_known { BookKnown book.now lore.now }
    requires book_in_bounds { (x : BookKnown book.now lore.now) → (length (compile x.book).code ≤ length code.old) × (length (compile x.book).code ≤ 262144) }
    requires in_bounds { (1536 ≤ length (words tables.old)) × (row rows.old 255 ≡ load_body []) }
    ensures { (x : BookKnown book.now lore.now) → BookDone x (words tables.old) (words tables.new) code.old code.new }
{
    let from = front_at(lore, lore.sizes.types);
    compile_funcs(book, lore, rows, from, tables, code);
    note_funs(lore, lore.sizes.funcs, tables);
    note_cons(book, lore, lore.sizes.cons, tables);
}

// A book compiled into the lent code memory, if it is accepted and its code has room; else nothing is written.
pub fn compile_into(
    book: &[u8],
    tables: &mut [u8],
    code: &mut [u8],
    room: usize,
) -> Result<usize, Refused>
    requires { (room ≤ length code.old) × (room ≤ 262144) × (1536 ≤ length (words tables.old)) }
    ensures { CompiledIs book.now room tables.old tables.new code.old code.new result }
{
    let lore = survey(book)?;
    let long = code_length(book, &lore);
    if room < long {
        return Err(Refused::TooLong(long));
    }
    let mut rows = [0u8; 2304];
    compile_book(book, &lore, &mut rows, tables, code);
    Ok(long)
}

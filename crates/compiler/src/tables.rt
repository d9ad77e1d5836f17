// The machine's tables, in words of lent memory.
// Here, in order: a function's start; the arities of functions; arity, type and arm of constructors.
// Not here: which word is which (specs/Tables).
ghost use Rattle.std.specs.Prelude.{◌≡◌, ◌<◌, ◌≤◌, length};
ghost use Rattle.mem.specs.Words.{words};
ghost use Rattle.compiler.specs.Tables.{ConsKnown, FunsNoted, ConsNoted};
ghost use Rattle.compiler.specs.Here.{Started};

use crate::Lore;

// A function's start, in two words.
pub fn note_start(tables: &mut [u8], f: usize, start: usize)
    requires { (f < 256) × (start ≤ 262144) × (512 ≤ length (words tables.old)) }
    ensures { Started (words tables.old) (words tables.new) f start }
{
    mem::put(tables, 2 * f, (start % 65536) as u16);
    mem::put(tables, 2 * f + 1, (start / 65536) as u16);
}

// The arities of n functions, into the tables.
pub fn note_funs(lore: &Lore, n: usize, tables: &mut [u8])
    requires { (n ≤ 256) × (1536 ≤ length (words tables.old)) }
    ensures { FunsNoted lore.now (words tables.old) (words tables.new) n }
{
    for f in 0..n {
        mem::put(tables, 512 + f, lore.funcs[f] as u16);
    }
}

// The arities of n constructors, and the type and arm of each, into the tables.
pub fn note_cons(book: &[u8], lore: &Lore, n: usize, tables: &mut [u8])
    requires in_bounds { (n ≤ 256) × (1536 ≤ length (words tables.old)) }
    requires cons_known { ConsKnown book.now n }
    ensures { ConsNoted book.now lore.now (words tables.old) (words tables.new) n }
{
    for c in 0..n {
        let home = book::con_home(book, book::ConNo(c as u8));
        mem::put(tables, 768 + c, lore.cons[c] as u16);
        mem::put(tables, 1024 + c, home.ty as u16);
        mem::put(tables, 1280 + c, home.arm as u16);
    }
}

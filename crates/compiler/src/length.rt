// The length of a book's code, before any of it is written: each record of the book brings its own bytes.
// Here, in order: a variable's arm; a SPLIT; another record; a record's width in the book; the record at a place; the book.
// Not here: the code itself (tree).
ghost use Rattle.std.specs.Prelude.{◌≡◌, ◌+◌, ◌*◌, ◌<◌, ◌≤◌, length, get_or};
ghost use Rattle.engine.specs.Compile.{compile};
ghost use Rattle.compiler.specs.Records.{cost};
ghost use Rattle.compiler.specs.Rows.{split_at, arm_at, cost_at, width_at};
ghost use Rattle.compiler.specs.Here.{RcdHere, Surveyed};

use crate::Lore;
use crate::kinds::{FRESH, NONE, RIGHT, RULE, SLOT, SPLIT};

// The length of a variable's arm.
fn arm_length(lore: &Lore, c: usize, n: usize) -> usize
    requires { c + n ≤ 256 }
    ensures { (result ≡ arm_at lore.now.cons c n) × (result ≤ 258 * n + 1) }
{
    let mut sum: usize = 1;
    for a in &lore.cons[c..c + n] {
        sum += *a as usize + 3;
    }
    sum
}

// How many bytes of code a SPLIT of a type brings.
fn split_cost(lore: &Lore, t: u8) -> usize
    requires { (t < 64) × (get_or lore.now.firsts t 0 + get_or lore.now.counts t 0 ≤ 256) }
    ensures { (result ≡ split_at lore.now t) × (result ≤ 70000) }
{
    let c = lore.firsts[t as usize] as usize;
    let m = lore.counts[t as usize] as usize;
    12 + 5 * (m + 1) + arm_length(lore, c, m)
}

// How many bytes of code another record brings.
fn record_cost(kind: u8, n: u8) -> usize
    ensures { (result ≡ cost_at kind n) × (result ≤ 510) }
{
    match kind {
        RULE if n == 1 => 2,
        RULE => 1,
        RIGHT => 2 * n as usize,
        SLOT => 11,
        FRESH => 2,
        NONE => 1,
        ..RULE => 0,
        _ => 3,
    }
}

// How many bytes a record has.
fn width(kind: u8) -> usize
    ensures { result ≡ width_at kind }
{
    match kind {
        SPLIT => 3,
        NONE => 1,
        _ => 2,
    }
}

// How many bytes of code the record at a place brings.
fn cost_at(s: &[u8], lore: &Lore, at: usize) -> usize
    requires { RcdHere s.now lore.now at }
    ensures { ((x : RcdHere s.now lore.now at) → result ≡ cost x.types x.rcd) × (result ≤ 70000) }
{
    match s[at] {
        SPLIT => split_cost(lore, s[at + 2]),
        NONE => 1,
        kind => record_cost(kind, s[at + 1]),
    }
}

// The length of an accepted book's code, by a pass of its own over the book's records.
pub fn code_length(book: &[u8], lore: &Lore) -> usize
    requires { Surveyed book.now lore.now }
    ensures { (x : Surveyed book.now lore.now) → result ≡ length (compile x.book).code }
{
    let mut at = 0;
    let mut sum: usize = 0;
    while at < book.len() {
        sum += cost_at(book, lore, at);
        at += width(book[at]);
    }
    sum
}

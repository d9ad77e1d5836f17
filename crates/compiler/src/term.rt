// The code of a term. Arguments are made last to first, so the records are walked backwards; how many there are is counted first.
// Here, in order: a record's code; a term's code; how many terms follow a record; how many records a term has.
// Not here: a RIGHT's variables (rule).
ghost use Rattle.std.specs.Prelude.{◌≡◌, ◌+◌, ◌*◌, ◌≤◌, length};
ghost use Rattle.book.specs.Accepted.{records};
ghost use Rattle.compiler.specs.Rows.{args_at, num_code, back, Emits};
ghost use Rattle.compiler.specs.Here.{TermHere};

use crate::Lore;
use crate::code::{MAKETERM, MAKEVAR, PUSH, put};
use crate::kinds::{CALL, CON, FRESH};
use crate::position::put_load;

// The code of one record of a term.
fn put_record(rows: &[u8; 2304], kind: u8, n: u8, code: &mut [u8], o: usize) -> usize
    requires { o + length (num_code rows.now kind n) ≤ length code.old }
    ensures { Emits code.old code.new o result (num_code rows.now kind n) }
{
    match kind {
        CON => put(code, o, &[MAKETERM, 0, n]),
        CALL => put(code, o, &[MAKETERM, 1, n]),
        FRESH => put(code, o, &[MAKEVAR, n]),
        _ => {
            let p = put_load(rows, n as usize, code, o);
            put(code, p, &[PUSH])
        }
    }
}

// The code of a term's n records from a place on: the last record's first, so the term is walked backwards.
pub fn put_term(
    s: &[u8],
    rows: &[u8; 2304],
    from: usize,
    n: usize,
    code: &mut [u8],
    o: usize,
) -> usize
    requires s_in_bounds { from + 2 * n ≤ length s.now }
    requires n_in_bounds { o + length (back rows.now s.now from n) ≤ length code.old }
    ensures { Emits code.old code.new o result (back rows.now s.now from n) }
{
    let mut out = o;
    for i in (0..n).rev() {
        let at = from + 2 * i;
        out = put_record(rows, s[at], s[at + 1], code, out);
    }
    out
}

// How many terms follow a term's record.
fn args_at(lore: &Lore, kind: u8, n: u8) -> usize
    ensures { result ≡ args_at lore.now kind n }
{
    match kind {
        CON => lore.cons[n as usize] as usize,
        CALL => lore.funcs[n as usize] as usize,
        _ => 0,
    }
}

// How many records a term has, by the count of terms still due.
pub fn term_size(s: &[u8], lore: &Lore, from: usize) -> usize
    requires { TermHere s.now lore.now from }
    ensures { (x : TermHere s.now lore.now from) → result ≡ records x.term }
{
    let mut at = from;
    let mut due: usize = 1;
    let mut n: usize = 0;
    while 0 < due {
        due = due - 1 + args_at(lore, s[at], s[at + 1]);
        at += 2;
        n += 1;
    }
    n
}

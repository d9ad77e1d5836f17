// The code of a RULE and its RIGHTs.
// Here, in order: the variables of a RIGHT; RIGHTs; a RULE.
// Not here: its terms (term).
ghost use Rattle.std.specs.Prelude.{◌≡◌, ◌+◌, ◌*◌, ◌≤◌, length, get_or};
ghost use Rattle.compiler.specs.Rows.{vars_code, Emits};
ghost use Rattle.compiler.specs.Here.{RightsHere, RightsDone, TreeHere, TreeDone};

use crate::code::{CHOICE, POP, REPLACE, STOREVAR, put};
use crate::term::{put_term, term_size};
use crate::{Ends, Lore};

// A STOREVAR for each of v variables.
fn put_vars(v: u8, code: &mut [u8], o: usize) -> usize
    requires { o + 2 * v ≤ length code.old }
    ensures { Emits code.old code.new o result (vars_code v) }
{
    let mut out = o;
    for i in 0..v {
        out = put(code, out, &[STOREVAR, i]);
    }
    out
}

// n RIGHTs and their code: a STOREVAR for each variable, then the term.
fn put_rights(
    s: &[u8],
    lore: &Lore,
    rows: &[u8; 2304],
    from: usize,
    n: usize,
    code: &mut [u8],
    o: usize,
) -> Ends
    requires { RightsHere s.now lore.now rows.now from n o code.old }
    ensures { (x : RightsHere s.now lore.now rows.now from n o code.old) → RightsDone x code.new result }
{
    let mut at = from;
    let mut out = o;
    for _ in 0..n {
        let v = s[at + 1];
        let k = at + 2;
        let size = term_size(s, lore, k);
        let p = put_vars(v, code, out);
        out = put_term(s, rows, k, size, code, p);
        at = k + 2 * size;
    }
    Ends { at, out }
}

// A RULE: one RIGHT replaces the call, several are its alternatives.
pub fn put_rule(
    s: &[u8],
    lore: &Lore,
    rows: &[u8; 2304],
    n: usize,
    at: usize,
    code: &mut [u8],
    o: usize,
) -> Ends
    requires { TreeHere s.now lore.now rows.now n at o code.old × (get_or s.now at 0 ≡ 5) }
    ensures { (x : TreeHere s.now lore.now rows.now n at o code.old) → TreeDone x code.new result }
{
    let k = s[at + 1];
    let e = put_rights(s, lore, rows, at + 2, k as usize, code, o);
    let out = if k == 1 {
        put(code, e.out, &[POP, REPLACE])
    } else {
        put(code, e.out, &[CHOICE])
    };
    Ends { at: e.at, out }
}

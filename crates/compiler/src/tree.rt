// The code of a tree. A tree and its children call each other, the bytes left falling. Children are compiled by a loop, so that the stack grows with a tree's depth alone.
// Here, in order: a tree; the children of a SPLIT, each laid down whole before the next.
// Not here: a SPLIT's front (arm), a RULE (rule).
ghost use Rattle.compiler.specs.Rows.{Keeps};
ghost use Rattle.compiler.specs.Here.{TreeHere, TreeDone, TreesHere, TreesDone};

use crate::arm::put_front;
use crate::code::{FAIL, put, put_go};
use crate::kinds::{RULE, SPLIT};
use crate::position::grow;
use crate::rule::put_rule;
use crate::{Ends, Lore};

// A tree's code.
#[cycle(compile_tree_compile_trees)]
pub fn compile_tree(
    s: &[u8],
    lore: &Lore,
    rows: &mut [u8; 2304],
    n: usize,
    at: usize,
    code: &mut [u8],
    o: usize,
) -> Ends
    requires { TreeHere s.now lore.now rows.old n at o code.old }
    ensures { ((x : TreeHere s.now lore.now rows.old n at o code.old) → TreeDone x code.new result) × Keeps n rows.old rows.new }
{
    match s[at] {
        SPLIT => {
            let slot = s[at + 1] as usize;
            let ty = s[at + 2];
            let c = lore.firsts[ty as usize] as usize;
            let m = lore.counts[ty as usize] as usize;
            let body = put_front(lore, rows, slot, ty, c, m, code, o);
            compile_trees(s, lore, rows, n, slot, c, m, at + 3, o + 17, code, body)
        }
        RULE => put_rule(s, lore, rows, n, at, code, o),
        _ => {
            let out = put(code, o, &[FAIL]);
            Ends { at: at + 1, out }
        }
    }
}

// A tree for each of m constructors from number c on, under a SPLIT of the slot; each one's GO is written when its place is known.
#[cycle(compile_tree_compile_trees)]
fn compile_trees(
    s: &[u8],
    lore: &Lore,
    rows: &mut [u8; 2304],
    n: usize,
    slot: usize,
    c: usize,
    m: usize,
    at: usize,
    g: usize,
    code: &mut [u8],
    o: usize,
) -> Ends
    requires { TreesHere s.now lore.now rows.old n slot c m at g o code.old }
    ensures { ((x : TreesHere s.now lore.now rows.old n slot c m at g o code.old) → TreesDone x code.new result) × Keeps n rows.old rows.new }
{
    let mut ends = Ends { at, out: o };
    for i in 0..m {
        let a = lore.cons[c + i] as usize;
        put_go(code, g + 5 * i, ends.out);
        grow(rows, slot, n, a);
        ends = compile_tree(s, lore, rows, n + a, ends.at, code, ends.out);
    }
    ends
}

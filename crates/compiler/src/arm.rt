// What a SPLIT has before its children: LOAD, BRANCH, the GOs and the variable's arm.
// Here, in order: a constructor with new variables; the variable's arm; the whole, but for the children's GOs.
// Not here: the children and their GOs (tree).
ghost use Rattle.std.specs.Prelude.{◌≡◌, [], ◌∷◌, ◌++◌, ◌+◌, ◌*◌, ◌<◌, ◌≤◌, length, take, drop, replicate};
ghost use Rattle.compiler.specs.Rows.{arm_code, Emits, Fronts};

use crate::Lore;
use crate::code::{BRANCH, MAKEANON, MAKETERM, NARROW, put, put_go};
use crate::position::put_load;

// As many MAKEANONs as a constructor has arguments, then the MAKETERM.
fn put_instance(a: u8, c: u8, code: &mut [u8], o: usize) -> usize
    requires { o + (a + 3) ≤ length code.old }
    ensures { Emits code.old code.new o result (replicate a 0x35 ++ 0x38 ∷ 0 ∷ c ∷ []) }
{
    let mut out = o;
    for _ in 0..a {
        out = put(code, out, &[MAKEANON]);
    }
    put(code, out, &[MAKETERM, 0, c])
}

// A variable's arm, for n constructors from number c on.
fn put_arm(lore: &Lore, c: usize, n: usize, code: &mut [u8], o: usize) -> usize
    requires cons_in_bounds { c + n ≤ 256 }
    requires code_in_bounds { o + length (arm_code c (take n (drop c lore.now.cons))) ≤ length code.old }
    ensures { Emits code.old code.new o result (arm_code c (take n (drop c lore.now.cons))) }
{
    let mut out = o;
    for con in c..c + n {
        out = put_instance(lore.cons[con], con as u8, code, out);
    }
    put(code, out, &[NARROW])
}

// A SPLIT's LOAD, BRANCH and first GO, and its variable's arm; the children's GOs stand between.
pub fn put_front(
    lore: &Lore,
    rows: &[u8; 2304],
    slot: usize,
    ty: u8,
    c: usize,
    m: usize,
    code: &mut [u8],
    o: usize,
) -> usize
    requires slot_in_bounds { slot < 256 }
    requires cons_in_bounds { c + m ≤ 256 }
    requires code_in_bounds { o + 17 + 5 * m + length (arm_code c (take m (drop c lore.now.cons))) ≤ length code.old }
    ensures { Fronts lore.now rows.now code.old code.new slot ty c m o result }
{
    let p = put_load(rows, slot, code, o);
    let g = put(code, p, &[BRANCH, ty]);
    let arm = g + 5 + 5 * m;
    put_go(code, g, arm);
    put_arm(lore, c, m, code, arm)
}

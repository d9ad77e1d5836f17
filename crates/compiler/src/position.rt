// The positions of the slots, in 256 rows of nine bytes: length and steps, as they stand in a LOAD.
// The rows lie flat: an array of arrays was tried, and a contract there does not know that a row has nine bytes.
// Here, in order: a LOAD; a row that is another with one step more; the rows of new slots.
// Not here: which slots there are (tree, whole).
ghost use Rattle.std.specs.Prelude.{◌≡◌, ◌∷◌, ◌+◌, ◌*◌, ◌<◌, ◌≤◌, ◌⊎◌, length, get_or};
ghost use Rattle.compiler.specs.Rows.{row, Emits, Stepped, Grown};

use crate::code::{LOAD, put};

// A LOAD of position i.
pub fn put_load(rows: &[u8; 2304], i: usize, code: &mut [u8], o: usize) -> usize
    requires i_in_bounds { i < 256 }
    requires o_in_bounds { o + 10 ≤ length code.old }
    ensures { Emits code.old code.new o result (0x30 ∷ row rows.now i) }
{
    let p = put(code, o, &[LOAD]);
    put(code, p, &rows[9 * i..9 * i + 9])
}

// Row `to` becomes the position of row `slot` with one step more.
fn put_step(rows: &mut [u8; 2304], slot: usize, to: usize, step: u8)
    requires in_bounds { (slot < 256) × (to < 256) }
    requires fact { ((slot ≡ to → ⊥)) × (get_or rows.old (9 * slot) 0 < 8) }
    ensures { Stepped rows.old rows.new slot to step }
{
    let from = 9 * slot;
    let base = 9 * to;
    let len = rows[from];
    rows.copy_within(from..from + 9, base);
    rows[base] = len + 1;
    rows[base + 1 + len as usize] = step;
}

// The positions of a new slots behind n: those of a slot, with one step more, in order.
pub fn grow(rows: &mut [u8; 2304], slot: usize, n: usize, a: usize)
    requires in_bounds { (slot < 256) × (n + a ≤ 64) }
    requires fact { ((slot < n) ⊎ (slot ≡ 255)) × (get_or rows.old (9 * slot) 0 < 8) }
    ensures { Grown rows.old rows.new slot n a }
{
    for i in 0..a {
        put_step(rows, slot, n + i, (i + 1) as u8);
    }
}

// The tables beyond the book's counts: no function, no constructor.
// Here, in order: words filled; the tables' words from the counts on.
ghost use Rattle.std.specs.Prelude.{◌≤◌, ◌+◌};
ghost use Rattle.store.specs.Whole.{SameLoan};
ghost use Rattle.pool.specs.Ring.{RestRoom};
ghost use Rattle.run.specs.Filled.{WordsFilled, Ended};

use store::Store;

// Words of the rest from one place to another.
fn fill(store: &mut Store, from: usize, to: usize, v: u16)
    requires { RestRoom store.old.limit to store.old.bytes.now × (from ≤ to) }
    ensures loan { SameLoan store.old store.new }
    ensures filled { WordsFilled store.old.limit from to v store.old.bytes.now store.new.bytes.now }
{
    for k in from..to {
        store.put_rest(k, v);
    }
}

// No function from number nf on, and no constructor from number nc on.
pub fn end_tables(store: &mut Store, base: usize, nf: usize, nc: usize)
    requires rest_room { RestRoom store.old.limit (base + 1536) store.old.bytes.now }
    requires nf_bound { (nf ≤ 256) × (nc ≤ 256) }
    ensures loan { SameLoan store.old store.new }
    ensures ended { Ended store.old.limit base nf nc store.old.bytes.now store.new.bytes.now }
{
    fill(store, base + 2 * nf, base + 512, 0);
    fill(store, base + 512 + nf, base + 768, 0);
    fill(store, base + 768 + nc, base + 1024, 0);
    fill(store, base + 1024 + nc, base + 1280, 65535);
}

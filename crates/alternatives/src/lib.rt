// A copy of a computation for each of its alternatives, laid down in the store; their handles go to the scratch rows, in order.
// Here, in order: a node's arguments; a node saved and put back; one copy; all of them.
#![tactic(auto)]

ghost use Rattle.std.specs.Prelude.{◌≡◌, ℕ, ◌+◌, ◌*◌, ◌<◌, ◌≤◌, length, take};
ghost use Rattle.heap.specs.Graph as g;
ghost use Rattle.store.specs.Rows.{count_of};
ghost use Rattle.store.specs.Roots.{roots_of};
ghost use Rattle.store.specs.Regions.{set_node};
ghost use Rattle.store.specs.Whole.{graph, SameLoan, Became};
ghost use Rattle.copier.specs.Listed.{Clean};
ghost use Rattle.pool.specs.Ring.{Sized};
ghost use Rattle.alternatives.specs.Copies.{node_is, Space, Opens, Divides, terms_in, OnePoured, AllPoured};

use store::{Head, NodeNo, Roots, Seen, Store};

// A node as it was: what is seen of it, and its arguments.
#[derive(Clone, Copy)]
pub struct Saved {
    pub what: Seen,
    pub args: [u16; 8],
}

// The first `count` arguments of a node, as many as it has.
fn args_of(store: &Store, n: NodeNo, count: u16) -> [u16; 8]
    requires n_lt_limit { n.0 < store.now.limit }
    requires count_value { (count ≡ length (g.args (g.node (graph store.now) n.0))) × (count ≤ 8) }
    ensures { take count result ≡ g.args (g.node (graph store.now) n.0) }
{
    let mut args = [0; 8];
    for j in 0..count {
        args[j as usize] = store.arg(n, j).0;
    }
    args
}

// A node saved.
fn save(store: &Store, n: NodeNo) -> Saved
    requires n_lt_limit { n.0 < store.now.limit }
    ensures { (node_is result ≡ g.node (graph store.now) n.0) × (count_of result.what ≤ 8) }
{
    let what = store.look(n);
    let args = args_of(store, n, what.count());
    Saved { what, args }
}

// A node becomes what was saved.
fn put_back(store: &mut Store, n: NodeNo, saved: Saved)
    requires n_lt_limit { n.0 < store.old.limit }
    requires what_bound { count_of saved.what ≤ 8 }
    ensures { Became store.old store.new (set_node n.0 (node_is saved)) }
{
    match saved.what {
        Seen::Var => store.put_var(n),
        Seen::Con(c, k) => store.put_cell(n, Head::Makes(c), saved.args, k),
        Seen::Call(f, k) => store.put_cell(n, Head::Calls(f), saved.args, k),
        Seen::Fwd(t) => store.put_fwd(n, t),
    }
}

// The copy of the computation as if node h were a forward to k; its handles are alternative i. How many nodes are made then; none where
// it does not fit.
fn pour_one(
    store: &mut Store,
    base: usize,
    made: usize,
    roots: Roots,
    h: NodeNo,
    k: NodeNo,
    i: usize,
) -> Option<usize>
    requires space { Space store.old.limit base store.old.bytes.now }
    requires made_le_limit { (made ≤ store.old.limit) × (i < 32) }
    requires sized { Sized roots }
    requires opens { Opens store.old.limit made (roots_of roots) h.0 k.0 store.old.bytes.now }
    requires clean { Clean store.old.limit store.old.bytes.now }
    ensures loan { SameLoan store.old store.new }
    ensures poured { OnePoured store.old.limit base made roots h.0 k.0 i store.old.bytes.now store.new.bytes.now result }
{
    let saved = save(store, h);
    store.put_fwd(h, k);
    let poured = copier::pour_copy(store, made, roots);
    put_back(store, h, saved);
    let copy = poured?;
    pool::put_scratch(store, base, i, copy.roots);
    Some(copy.made)
}

// A copy for each of the `count` terms that lie in the rest from word base + 2696 on, as if node h were a forward to it. How many nodes are
// made then; none where they do not fit.
pub fn pour_all(
    store: &mut Store,
    base: usize,
    made: usize,
    roots: Roots,
    h: NodeNo,
    count: usize,
) -> Option<usize>
    requires space { Space store.old.limit base store.old.bytes.now }
    requires made_le_limit { (made ≤ store.old.limit) × (count ≤ 32) }
    requires sized { Sized roots }
    requires divides { Divides store.old.limit made (roots_of roots) h.0 (terms_in store.old.limit base store.old.bytes.now count) store.old.bytes.now }
    requires clean { Clean store.old.limit store.old.bytes.now }
    ensures loan { SameLoan store.old store.new }
    ensures poured { AllPoured store.old.limit base made roots h.0 count store.old.bytes.now store.new.bytes.now result }
{
    let mut now_made = made;
    for i in 0..count {
        let k = store.rest(base + 2696 + i);
        now_made = pour_one(store, base, now_made, roots, h, NodeNo(k), i)?;
    }
    Some(now_made)
}

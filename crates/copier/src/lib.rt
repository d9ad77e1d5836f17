// The copy of a computation, poured at the next free numbers. The nodes seen are the words of the store's list, in order of first
// sight; each has its place + 1 in its place word, so that a shared node is copied once.
#![tactic(auto)]

ghost use Rattle.std.specs.Prelude.{◌≡◌, [], ◌∷◌, map, ℕ, ◌+◌, ◌<◌, ◌≤◌, length, get_or};
ghost use Rattle.heap.specs.Graph as g;
ghost use Rattle.store.specs.Rows.{symbol_of};
ghost use Rattle.store.specs.Roots.{roots_of};
ghost use Rattle.store.specs.Regions.{set_node};
ghost use Rattle.store.specs.Whole.{graph, list, places, SameLoan, Became};
ghost use Rattle.copier.specs.Listed.{seen_in, Clean, Below, Listed, Ends, Saw, Lists, Solid, cleared};
ghost use Rattle.copier.specs.Poured.{placed, Spots, new_args, Copies, renumbered, Closed, laid_from, Emitted, Placed, Walkable, PouredTo};

use store::{Head, NodeNo, Roots, Seen, Store};

// A copy that fits: how many nodes are made then, and the copy's handles.
#[derive(Clone, Copy)]
pub struct Poured {
    pub made: usize,
    pub roots: Roots,
}

// The node that a handle ends at is seen: behind the list, unless it is there.
fn see(store: &mut Store, count: usize, h: NodeNo) -> usize
    requires listed { Listed store.old.limit count store.old.bytes.now }
    requires h_bound { g.follow (graph store.old) h.0 < store.old.limit }
    ensures loan { SameLoan store.old store.new }
    ensures saw { Saw store.old.limit count (h.0 ∷ []) store.old.bytes.now store.new.bytes.now result }
{
    let n = store.follow(h);
    let p = store.place(n);
    if p > 0 {
        return count;
    }
    store.put_listed(count, n);
    store.put_place(n, (count + 1) as u16);
    count + 1
}

// The nodes that the handles end at are seen.
fn see_all(store: &mut Store, count: usize, hs: Roots) -> usize
    requires listed { Listed store.old.limit count store.old.bytes.now }
    requires n_bound { hs.n ≤ 9 }
    requires ends { Ends store.old.limit (graph store.old) (roots_of hs) }
    ensures loan { SameLoan store.old store.new }
    ensures saw { Saw store.old.limit count (roots_of hs) store.old.bytes.now store.new.bytes.now result }
{
    let mut k = count;
    for &h in &hs.at[..hs.n] {
        k = see(store, k, NodeNo(h));
    }
    k
}

// The arguments of node i of the list are seen.
fn see_under(store: &mut Store, count: usize, i: usize) -> usize
    requires listed { Listed store.old.limit count store.old.bytes.now }
    requires i_lt_count { i < count }
    requires ends { Ends store.old.limit (graph store.old) (g.args (g.node (graph store.old) (get_or (seen_in store.old.limit count store.old.bytes.now) i 0))) }
    ensures loan { SameLoan store.old store.new }
    ensures saw { Saw store.old.limit count (g.args (g.node (graph store.old) (get_or (seen_in store.old.limit count store.old.bytes.now) i 0))) store.old.bytes.now store.new.bytes.now result }
{
    let n = store.listed(i);
    let what = store.look(n);
    let mut k = count;
    for j in 0..what.count() {
        let h = store.arg(n, j);
        k = see(store, k, h);
    }
    k
}

// All nodes under those of the list are seen.
fn see_below(store: &mut Store, count: usize) -> usize
    requires listed { Listed store.old.limit count store.old.bytes.now }
    requires solid { Solid store.old.limit (graph store.old) (g.sweep store.old.limit (graph store.old) 0 (seen_in store.old.limit count store.old.bytes.now)) }
    ensures loan { SameLoan store.old store.new }
    ensures lists { Lists store.old.limit store.old.bytes.now store.new.bytes.now (g.sweep store.old.limit (graph store.old) 0 (seen_in store.old.limit count store.old.bytes.now)) result }
{
    let mut k = count;
    let mut i = 0;
    // A `while`: the list grows as it is gone through, so its end is not known before.
    while i < k {
        k = see_under(store, k, i);
        i += 1;
    }
    k
}

// What is reachable from the handles is listed.
fn list_all(store: &mut Store, hs: Roots) -> usize
    requires clean { Clean store.old.limit store.old.bytes.now }
    requires n_bound { hs.n ≤ 9 }
    requires ends { Ends store.old.limit (graph store.old) (roots_of hs) }
    requires solid { Solid store.old.limit (graph store.old) (g.reach (graph store.old) (roots_of hs)) }
    ensures loan { SameLoan store.old store.new }
    ensures lists { Lists store.old.limit store.old.bytes.now store.new.bytes.now (g.reach (graph store.old) (roots_of hs)) result }
{
    let n = see_all(store, 0, hs);
    see_below(store, n)
}

// A handle's new number.
fn place_of(store: &Store, made: usize, h: NodeNo) -> u16
    requires spots { Spots store.now.limit made store.now.bytes.now (h.0 ∷ []) }
    ensures { result ≡ placed store.now.limit made store.now.bytes.now h.0 }
{
    let n = store.follow(h);
    let p = store.place(n);
    (made + (p as usize - 1)) as u16
}

// The new numbers of handles.
fn places_of(store: &Store, made: usize, hs: Roots) -> Roots
    requires n_bound { hs.n ≤ 9 }
    requires spots { Spots store.now.limit made store.now.bytes.now (roots_of hs) }
    ensures { (roots_of result ≡ map (placed store.now.limit made store.now.bytes.now) (roots_of hs)) × (result.n ≡ hs.n) }
{
    let mut at = [0; 9];
    for j in 0..hs.n {
        at[j] = place_of(store, made, NodeNo(hs.at[j]));
    }
    Roots { at, ..hs }
}

// Node `to` becomes a cell with the arguments of node n, by their new numbers.
fn put_copy(store: &mut Store, made: usize, n: NodeNo, to: NodeNo, head: Head, count: u16)
    requires copies { Copies store.old.limit made n.0 to.0 store.old.bytes.now }
    requires count_value { count ≡ length (g.args (g.node (graph store.old) n.0)) }
    ensures { Became store.old store.new (set_node to.0 (g.cell (symbol_of head) (new_args store.old.limit made n.0 store.old.bytes.now))) }
{
    store.put_head(to, head, count);
    for j in 0..count {
        let h = store.arg(n, j);
        let v = place_of(store, made, h);
        store.put_arg(to, j, v);
    }
}

// The copy of node i of the list is written at its new number.
fn emit(store: &mut Store, made: usize, i: usize)
    requires copies { Copies store.old.limit made (get_or (list store.old) i 0) (made + i) store.old.bytes.now }
    ensures { Became store.old store.new (set_node (made + i) (renumbered (placed store.old.limit made store.old.bytes.now) (g.node (graph store.old) (get_or (list store.old) i 0)))) }
{
    let n = store.listed(i);
    let to = NodeNo((made + i) as u16);
    match store.look(n) {
        Seen::Con(c, k) => put_copy(store, made, n, to, Head::Makes(c), k),
        Seen::Call(f, k) => put_copy(store, made, n, to, Head::Calls(f), k),
        _ => store.put_var(to),
    }
}

// The copies of all nodes of the list are written.
fn emit_all(store: &mut Store, made: usize, count: usize)
    requires count_bound { made + count ≤ store.old.limit }
    requires listed { Listed store.old.limit count store.old.bytes.now }
    requires closed { Closed (graph store.old) made (seen_in store.old.limit count store.old.bytes.now) }
    ensures loan { SameLoan store.old store.new }
    ensures emitted { Emitted store.old.limit store.old.bytes.now store.new.bytes.now (laid_from made (graph store.old) (seen_in store.old.limit count store.old.bytes.now)) }
{
    for i in 0..count {
        emit(store, made, i);
    }
}

// The place words of the list's nodes are set back.
fn clear(store: &mut Store, count: usize)
    requires count_le_limit { count ≤ store.old.limit }
    requires below { Below store.old.limit (seen_in store.old.limit count store.old.bytes.now) }
    ensures loan { SameLoan store.old store.new }
    ensures placed { Placed store.old.limit store.old.bytes.now store.new.bytes.now (cleared (seen_in store.old.limit count store.old.bytes.now) (places store.old)) }
{
    for i in 0..count {
        let n = store.listed(i);
        store.put_place(n, 0);
    }
}

// The copy of the computation with these handles, the value's first, at the next free numbers; none where it does not fit.
pub fn pour_copy(store: &mut Store, made: usize, roots: Roots) -> Option<Poured>
    requires made_le_limit { made ≤ store.old.limit }
    requires le_n { (1 ≤ roots.n) × (roots.n ≤ 9) }
    requires walkable { Walkable (graph store.old) made (roots_of roots) }
    requires clean { Clean store.old.limit store.old.bytes.now }
    ensures loan { SameLoan store.old store.new }
    ensures poured { PouredTo store.old.limit made roots store.old.bytes.now store.new.bytes.now result }
{
    let count = list_all(store, roots);
    if store.limit - made < count {
        clear(store, count);
        return None;
    }
    let held = places_of(store, made, roots);
    emit_all(store, made, count);
    clear(store, count);
    Some(Poured {
        made: made + count,
        roots: held,
    })
}

// Chains of forwards stay short: before each turn of a computation the forwards from its stack's top are led on to their end.
//
// Why that is enough. A call becomes a forward only where the forwards of the stack's top entry end, and an entry stays on the stack until its
// end is no call. So forwards lead to a call only if it is the end of an entry. What the top entry's call is replaced by lies under that call; the
// graph has no cycle, so it is not the end of an entry further down, and no other forwards lead to it. Constructors and variables never become
// forwards, and alternatives are copied without any. What is left is one entry whose end is replaced again and again: it leads on to the new end,
// and each node that was the end leads back to it. So a turn reads at most two forwards in a row, and a copy, made as if there were one more, three.
//
// Here, in order: where the second node of a chain is led; both led on; the chain from a stack's top.
// specs/Shortcut says what is written; proofs/Moments that every computation stands in the store as before.
#![tactic(auto)]

ghost use Rattle.std.specs.Prelude.{◌≡◌, suc, ◌<◌};
ghost use Rattle.heap.specs.Graph as g;
ghost use Rattle.store.specs.Whole.{graph, Became};
ghost use Rattle.forwards.specs.Shortcut.{led, shorten_top};

use store::{NodeNo, Seen, Store};

// Where the second node of a chain from a to e is led: to a where e is a call, else to e.
fn lead(store: &Store, a: NodeNo, e: NodeNo) -> NodeNo
    ensures { result.0 ≡ led (g.node (graph store.now) e.0) a.0 e.0 }
{
    if e.0 as usize >= store.limit {
        return e;
    }
    match store.look(e) {
        Seen::Call(_, _) => a,
        _ => e,
    }
}

// Node a, a forward to x, and x are led on.
fn lead_on(store: &mut Store, a: NodeNo, x: NodeNo)
    requires a_lt_limit { (a.0 < store.old.limit) × (g.node (graph store.old) a.0 ≡ g.fwd x.0) }
    ensures { Became store.old store.new (shorten_top (suc a.0)) }
{
    let e = store.follow(a);
    if x == e {
        return;
    }
    let y = lead(store, a, e);
    store.put_fwd(a, e);
    store.put_fwd(x, y);
}

// The forwards from a stack's top are led on; the top is a node's number + 1, and 0 where there is none.
pub fn shorten(store: &mut Store, top: u16)
    ensures { Became store.old store.new (shorten_top top) }
{
    if top == 0 {
        return;
    }
    let a = NodeNo(top - 1);
    if a.0 as usize >= store.limit {
        return;
    }
    let Seen::Fwd(x) = store.look(a) else {
        return;
    };
    lead_on(store, a, x);
}

// How many bytes the terms have. A shared term is counted each time that it is met: the count stops where it passes the room, so the work is the room's at most, and no mark is needed.
// Here, in order: what the frames owe; a term; the terms.
ghost use Rattle.std.specs.Prelude.{◌≡◌, [], ◌+◌, ◌≤◌, length};
ghost use Rattle.heap.specs.Graph as g;
ghost use Rattle.store.specs.Regions.{stack};
ghost use Rattle.store.specs.Whole.{graph, frames, SameLoan};
ghost use Rattle.store.specs.Roots.{roots_of};
ghost use Rattle.writer.specs.Walk.{Reads, Read, Stood, Framed};
ghost use Rattle.writer.specs.Owes.{dues, Counted, fits};

use crate::walk::{step, visit, weight};
use store::{NodeNo, Roots, Store};

// The bytes that the frames owe are added to the sum, until it passes the room.
fn tally(store: &mut Store, depth: usize, sum: usize, room: usize) -> usize
    requires stood { Stood (graph store.old) (stack depth (frames store.old)) }
    requires room_bound { (room ≤ 65536) × (sum ≤ room + 3) }
    ensures loan { SameLoan store.old store.new }
    ensures framed { Framed store.old.limit store.old.bytes.now store.new.bytes.now }
    ensures counted { Counted room (sum + dues store.old.limit (graph store.old) (stack depth (frames store.old))) result }
{
    let mut d = depth;
    let mut n = sum;
    while d > 0 {
        if n > room {
            return n;
        }
        let t = step(store, d - 1);
        n += weight(t.met);
        d = t.depth;
    }
    n
}

// The bytes of a term are added to the sum, until it passes the room.
fn size_term(store: &mut Store, h: NodeNo, sum: usize, room: usize) -> usize
    requires read { Read (graph store.old) h.0 }
    requires room_bound { (room ≤ 65536) × (sum ≤ room) }
    ensures loan { SameLoan store.old store.new }
    ensures framed { Framed store.old.limit store.old.bytes.now store.new.bytes.now }
    ensures counted { Counted room (sum + length (g.write store.old.limit (graph store.old) [] h.0).1) result }
{
    let t = visit(store, 0, h);
    let w = weight(t.met);
    tally(store, t.depth, sum + w, room)
}

// How many bytes the terms have, if they fit into the room.
pub fn size(store: &mut Store, roots: Roots, room: usize) -> Option<usize>
    requires reads { Reads (graph store.old) (roots_of roots) }
    requires n_bound { (roots.n ≤ 9) × (room ≤ 65536) }
    ensures loan { SameLoan store.old store.new }
    ensures framed { Framed store.old.limit store.old.bytes.now store.new.bytes.now }
    ensures size { result ≡ fits room (length (g.write_each store.old.limit (graph store.old) (roots_of roots))) }
{
    let mut sum = 0;
    for h in &roots.at[..roots.n] {
        sum = size_term(store, NodeNo(*h), sum, room);
        if sum > room {
            return None;
        }
    }
    Some(sum)
}

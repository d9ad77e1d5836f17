// A result's record: kind 20, the turn's number in four bytes, the terms; only where the whole record has room.
ghost use Rattle.std.specs.Prelude.{◌≡◌, ◌+◌, ◌≤◌, length};
ghost use Rattle.heap.specs.Graph.{write_each};
ghost use Rattle.store.specs.Whole.{graph, SameLoan};
ghost use Rattle.store.specs.Roots.{roots_of};
ghost use Rattle.writer.specs.Walk.{Reads};
ghost use Rattle.writer.specs.Written.{Clean};
ghost use Rattle.rounds.specs.Around.{headed, ResultPut};

use store::{Roots, Store};

// The kind and the turn's number.
fn put_head(out: &mut [u8], at: usize, turn: usize)
    requires { (at + 5 ≤ length out.old) × (turn ≤ 1000000) }
    ensures { out.new ≡ headed out.old at turn }
{
    out[at] = 0x20;
    out[at + 1..at + 5].copy_from_slice(&(turn as u32).to_le_bytes());
}

// The record of the terms at place `at`, if all of it fits into the room: where it ends.
pub fn put_result(
    store: &mut Store,
    roots: Roots,
    out: &mut [u8],
    at: usize,
    room: usize,
    turn: usize,
) -> Option<usize>
    requires reads { Reads (graph store.old) (roots_of roots) }
    requires clean { Clean store.old.limit store.old.bytes.now × (roots.n ≤ 9) × (turn ≤ 1000000) }
    requires at_le_room { (at ≤ room) × (room ≤ 65536) × (room ≤ length out.old) }
    ensures loan { SameLoan store.old store.new }
    ensures put { ResultPut store.old.limit room at turn (write_each store.old.limit (graph store.old) (roots_of roots)) store.old.bytes.now store.new.bytes.now out.old out.new result }
{
    let left = (room - at).checked_sub(5)?;
    writer::size(store, roots, left)?;
    put_head(out, at, turn);
    let from = at + 5;
    let n = writer::write(store, roots, &mut out[from..]);
    Some(from + n)
}

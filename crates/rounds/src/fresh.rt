// Marks and places set to 0, once for a run: nothing else is walked that grows with the limits.
ghost use Rattle.store.specs.Whole.{SameLoan};
ghost use Rattle.rounds.specs.Around.{Fresh};

use store::{NodeNo, Store};

// No node is marked, and none has a place.
pub fn clear(store: &mut Store)
    ensures loan { SameLoan store.old store.new }
    ensures fresh { Fresh store.old.limit store.old.bytes.now store.new.bytes.now }
{
    for k in 0..store.limit {
        let n = NodeNo(k as u16);
        store.put_mark(n, 0);
        store.put_place(n, 0);
    }
}

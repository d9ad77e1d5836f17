// Alternatives join the pool: from their scratch rows to places behind the others, in order, each with an empty stack.
ghost use Rattle.std.specs.Prelude.{◌+◌, ◌<◌, ◌≤◌};
ghost use Rattle.store.specs.Regions.{AllRoom};
ghost use Rattle.store.specs.Whole.{SameLoan};
ghost use Rattle.rounds.specs.Around.{Joined};

use pool::Held;
use store::Store;

// The pool with `count` computations more, behind the others.
pub fn push_all(
    store: &mut Store,
    places: usize,
    n: usize,
    head: usize,
    waiting: usize,
    count: usize,
)
    requires all_room { AllRoom store.old.limit places store.old.bytes.now }
    requires head_lt_places { (head < places) × (waiting + count ≤ places) }
    requires le_n { (1 ≤ n) × (n ≤ 9) × (count ≤ 32) }
    ensures loan { SameLoan store.old store.new }
    ensures joined { Joined store.old.limit places n head waiting count store.old.bytes.now store.new.bytes.now }
{
    let base = 20 * places;
    for i in 0..count {
        let roots = pool::get_scratch(store.view(), base, n, i);
        pool::push(store, places, n, head, waiting + i, Held { roots, top: 0 });
    }
}

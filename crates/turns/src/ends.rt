// The step that ends a turn: a forward, or a copy for each alternative.
ghost use Rattle.std.specs.Prelude.{◌≡◌, ℕ, ◌+◌, ◌*◌, ◌<◌, ◌≤◌};
ghost use Rattle.store.specs.Whole.{SameLoan};
ghost use Rattle.machine.specs.Tables.{term_bound};
ghost use Rattle.copier.specs.Listed.{Clean};
ghost use Rattle.pool.specs.Ring.{Sized};
ghost use Rattle.turns.specs.Front.{Space};
ghost use Rattle.turns.specs.Ends.{Stopped, Finished};

use crate::{Turned, What};
use machine::Stop;
use pool::Held;
use store::Store;

// The step that the end of the code does.
pub fn finish(
    store: &mut Store,
    base: usize,
    held: Held,
    made: usize,
    top: u16,
    terms: usize,
    stop: Stop,
) -> Turned
    requires space { Space store.old.limit base store.old.bytes.now }
    requires made_le_limit { (made ≤ store.old.limit) × (terms ≤ term_bound) }
    requires sized { Sized held.roots }
    requires stopped { Stopped store.old.limit base held terms made store.old.bytes.now stop }
    requires clean { Clean store.old.limit store.old.bytes.now }
    ensures loan { SameLoan store.old store.new }
    ensures finished { Finished store.old.limit base held made top terms stop store.old.bytes.now store.new.bytes.now result }
{
    let what = match stop {
        Stop::Becomes(h, r) => {
            store.put_fwd(h, r);
            return Turned {
                what: What::Went,
                made,
                top,
            };
        }
        Stop::Parts(h) => match alternatives::pour_all(store, base, made, held.roots, h, terms) {
            Some(made) => {
                return Turned {
                    what: What::Split(terms),
                    made,
                    top: 0,
                };
            }
            None => What::NoneLeft,
        },
        Stop::Fails => What::Failed,
        Stop::Misfits => What::Misfit,
        Stop::Full => What::NoneLeft,
        Stop::Broken | Stop::Demand(_) => What::Lost,
    };
    Turned { what, made, top: 0 }
}

// One turn of the machine on the store: the front computation settles its stack, finds a call where that is empty, runs code until
// one step of the plain section is done, and does that step. specs/Front says what it is given and what it gives.
// Here: the answers and the turn. calls: where a turn begins, and the calls that are walked; ends: the step that ends it.
#![tactic(auto)]

pub mod calls;
pub mod ends;

ghost use Rattle.std.specs.Prelude.{◌≡◌, ℕ, ◌+◌, ◌*◌, ◌<◌, ◌≤◌, length};
ghost use Rattle.store.specs.Whole.{SameLoan};
ghost use Rattle.machine.specs.Tables.{code_bound};
ghost use Rattle.copier.specs.Listed.{Clean};
ghost use Rattle.pool.specs.Ring.{Sized};
ghost use Rattle.turns.specs.Front.{Space, Front, value_in, Searched, TurnTaken};

use pool::Held;
use store::Store;

// What comes of a turn: the computation goes on; has so many alternatives, in the scratch rows; its result is to be written; it
// failed; it was a misfit; no node was left; the definition's own bound ran out, which never comes.
#[derive(Clone, Copy)]
pub enum What {
    Went,
    Split(usize),
    Wrote,
    Failed,
    Misfit,
    NoneLeft,
    Lost,
}

// And how many nodes are made then, and the top + 1 of the stack of a computation that goes on.
#[derive(Clone, Copy)]
pub struct Turned {
    pub what: What,
    pub made: usize,
    pub top: u16,
}

// One turn of the front computation.
pub fn take_turn(store: &mut Store, base: usize, code: &[u8], made: usize, held: Held) -> Turned
    requires space { Space store.old.limit base store.old.bytes.now }
    requires code_len_bound { (length code.now ≤ code_bound) × (made ≤ store.old.limit) }
    requires sized { Sized held.roots }
    requires front { Front store.old.limit base code.now made held store.old.bytes.now }
    requires searched { Searched store.old.limit made (value_in held) store.old.bytes.now × Clean store.old.limit store.old.bytes.now }
    ensures loan { SameLoan store.old store.new }
    ensures taken { TurnTaken store.old.limit base code.now made held store.old.bytes.now store.new.bytes.now result }
{
    let limit = store.limit;
    let Some(top) = calls::begin(store, made, held) else {
        return Turned {
            what: What::Wrote,
            made,
            top: 0,
        };
    };
    let e = calls::drive(store, base, code, top, made, limit);
    let regs = e.regs;
    let now_made = regs.made.min(limit);
    ends::finish(store, base, held, now_made, regs.top, regs.terms, e.stop)
}

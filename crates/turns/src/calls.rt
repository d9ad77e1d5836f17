// The calls of a turn: where it begins, and each call that is walked.
ghost use Rattle.std.specs.Prelude.{◌≡◌, ℕ, ◌+◌, ◌*◌, ◌<◌, ◌≤◌, length};
ghost use Rattle.store.specs.Whole.{SameLoan};
ghost use Rattle.machine.specs.Tables.{Space, code_bound};
ghost use Rattle.pool.specs.Ring.{Sized};
ghost use Rattle.turns.specs.Front.{Standing, value_in, Searched};
ghost use Rattle.turns.specs.Calls.{Calls, Driven, Begun};

use machine::{Ended, Regs, Stop};
use pool::Held;
use store::{NodeNo, Store};

// The top + 1 of the stack where a turn begins, its top a call: the settled stack, or the value's first call where that is empty.
pub fn begin(store: &mut Store, made: usize, held: Held) -> Option<u16>
    requires standing { Standing store.old.limit made held store.old.bytes.now }
    requires sized { Sized held.roots }
    requires searched { Searched store.old.limit made (value_in held) store.old.bytes.now }
    ensures loan { SameLoan store.old store.new }
    ensures begun { Begun store.old.limit made held store.old.bytes.now store.new.bytes.now result }
{
    let top = machine::calls::settle(store.view(), held.top);
    if top > 0 {
        return Some(top);
    }
    let h = seek::first_call(store, NodeNo(held.roots.at[0]))?;
    store.put_link(h, 0);
    Some(h.0 + 1)
}

// The code of the call on the stack's top, and of each call that is walked instead, at most n of them.
pub fn drive(store: &mut Store, base: usize, code: &[u8], top: u16, made: usize, n: usize) -> Ended
    requires space { Space store.old.limit base store.old.bytes.now }
    requires code_len_bound { length code.now ≤ code_bound }
    requires calls { Calls store.old.limit base code.now top made store.old.bytes.now }
    ensures loan { SameLoan store.old store.new }
    ensures driven { Driven store.old.limit base code.now n top made store.old.bytes.now store.new.bytes.now result }
{
    let mut t = top;
    let mut k = made;
    for _ in 0..n {
        let e = machine::calls::on_top(store, base, code, t, k);
        let Stop::Demand(h) = e.stop else {
            return e;
        };
        store.put_link(h, t);
        t = h.0 + 1;
        k = e.regs.made;
    }
    Ended {
        regs: Regs::emptied(t, k),
        stop: Stop::Broken,
    }
}

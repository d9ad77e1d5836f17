// The code of the call on the stack's top; the settled stack.
ghost use Rattle.std.specs.Prelude.{◌≡◌, ℕ, ◌+◌, ◌<◌, ◌≤◌, length};
ghost use Rattle.store.specs.Whole.{SameLoan};
ghost use Rattle.machine.specs.Tables.{Space, code_bound};
ghost use Rattle.machine.specs.View.{called_of};
ghost use Rattle.machine.specs.Drive.{Topped, Settled};

use crate::{Ended, Regs, Stop, ops, steps, tables};
use book::FunNo;
use store::{NodeNo, Seen, Store, View};

// Which function what is seen calls.
fn called(k: Seen) -> Option<FunNo>
    ensures { result ≡ called_of k }
{
    match k {
        Seen::Call(f, _) => Some(f),
        _ => None,
    }
}

// The code of the call on the stack's top, all registers empty.
pub fn on_top(store: &mut Store, base: usize, code: &[u8], top: u16, made: usize) -> Ended
    requires space { Space store.old.limit base store.old.bytes.now }
    requires code_len_bound { length code.now ≤ code_bound }
    ensures loan { SameLoan store.old store.new }
    ensures topped { Topped store.old.limit base code.now top made store.old.bytes.now store.new.bytes.now result }
{
    let regs = Regs::emptied(top, made);
    let stop = Stop::Broken;
    if top == 0 {
        return Ended { regs, stop };
    }
    let view = store.view();
    let at = view.follow(NodeNo(top - 1));
    let k = ops::node_at(view, at);
    let Some(f) = called(k) else {
        return Ended { regs, stop };
    };
    let pc = tables::start_of(view, base, f);
    steps::exec(store, base, code, Regs { pc, ..regs }, code.len())
}

// The stack's top without the constructors and variables there.
pub fn settle(store: View, top: u16) -> u16
    ensures { Settled store.entry.limit store.entry.bytes.now top result }
{
    let mut t = top;
    for _ in 0..store.limit {
        if t == 0 {
            return 0;
        }
        let n = NodeNo(t - 1);
        let at = store.follow(n);
        let call = called(ops::node_at(store, at));
        if call.is_some() {
            return t;
        }
        if n.0 as usize >= store.limit {
            return 0;
        }
        t = store.link(n);
    }
    t
}

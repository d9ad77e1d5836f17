// Code until it ends: one operation, one step, at most n steps.
ghost use Rattle.std.specs.Prelude.{◌≡◌, ℕ, ◌+◌, ◌<◌, ◌≤◌, length};
ghost use Rattle.store.specs.Whole.{SameLoan};
ghost use Rattle.machine.specs.Tables.{Space, code_bound};
ghost use Rattle.machine.specs.View.{op_of, state_of};
ghost use Rattle.machine.specs.Contract.{run_on, step_on, Fine, Went, Came};

use crate::{Ended, Op, Regs, Stop, code, makes, ops};
use store::Store;

// The operation at place `at`; `regs.pc` is behind it.
pub fn run_op(
    store: &mut Store,
    base: usize,
    code: &[u8],
    regs: Regs,
    op: Op,
    at: usize,
) -> Result<Regs, Ended>
    requires space { Space store.old.limit base store.old.bytes.now }
    requires fine { Fine regs }
    requires at_le_code_bound { (at ≤ code_bound) × (regs.pc ≤ code_bound + 16) }
    ensures loan { SameLoan store.old store.new }
    ensures went { Went store.old.limit base code.now regs store.old.bytes.now store.new.bytes.now result (λ p. run_on p (op_of code.now at op) (state_of store.old.limit base code.now regs store.old.bytes.now)) }
{
    match op {
        Op::Load(n) => ops::load(store.view(), base, code, regs, at + 2, n),
        Op::Branch(t) => ops::branch(store.view(), base, code, regs, t),
        Op::Go | Op::Wrong => regs.ends(Stop::Broken),
        Op::Push => makes::push(store, base, code, regs),
        Op::Pop => ops::pop(store.view(), base, code, regs),
        Op::MakeAnon => makes::make_anon(store, base, code, regs),
        Op::StoreVar(v) => makes::store_var(store, base, code, regs, v),
        Op::MakeVar(v) => makes::make_var(store, base, code, regs, v),
        Op::MakeTerm(y) => makes::make_term(store, base, code, regs, y),
        Op::Replace => ops::replace(store.view(), base, code, regs),
        Op::Narrow => ops::narrow(store.view(), base, code, regs),
        Op::Choice => ops::choice(store.view(), base, code, regs),
        Op::Fail => regs.ends(Stop::Fails),
    }
}

// The instruction that the code begins with.
pub fn step(store: &mut Store, base: usize, code: &[u8], regs: Regs) -> Result<Regs, Ended>
    requires space { Space store.old.limit base store.old.bytes.now }
    requires fine { Fine regs }
    requires code_len_bound { length code.now ≤ code_bound }
    ensures loan { SameLoan store.old store.new }
    ensures went { Went store.old.limit base code.now regs store.old.bytes.now store.new.bytes.now result (λ p. step_on p (state_of store.old.limit base code.now regs store.old.bytes.now)) }
{
    let at = regs.pc;
    if at >= code.len() {
        return regs.ends(Stop::Broken);
    }
    let op = code::decode_at(code, at);
    let pc = at + code::width_of(op);
    run_op(store, base, code, Regs { pc, ..regs }, op, at)
}

// At most n instructions.
pub fn exec(store: &mut Store, base: usize, code: &[u8], regs: Regs, n: usize) -> Ended
    requires space { Space store.old.limit base store.old.bytes.now }
    requires fine { Fine regs }
    requires code_len_bound { length code.now ≤ code_bound }
    ensures loan { SameLoan store.old store.new }
    ensures came { Came store.old.limit base code.now regs n store.old.bytes.now store.new.bytes.now result }
{
    let mut r = regs;
    for _ in 0..n {
        match step(store, base, code, r) {
            Ok(next) => r = next,
            Err(end) => return end,
        }
    }
    Ended {
        regs: r,
        stop: Stop::Broken,
    }
}

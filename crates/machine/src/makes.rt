// The instructions that write: PUSH, MAKEANON, STOREVAR, MAKEVAR, MAKETERM. Each is one equation, as in ops.
ghost use Rattle.std.specs.Prelude.{◌≡◌, ◌+◌, ◌-◌, ◌<◌, ◌≤◌, take};
ghost use Rattle.heap.specs.Graph as g;
ghost use Rattle.store.specs.Rows.{symbol_of};
ghost use Rattle.store.specs.Regions.{set_node};
ghost use Rattle.store.specs.Whole.{SameLoan, Became};
ghost use Rattle.engine.specs.Code as c;
ghost use Rattle.machine.specs.Tables.{Space, term_bound};
ghost use Rattle.machine.specs.View.{pre_terms, state_of};
ghost use Rattle.machine.specs.Contract.{run_on, pushed, Fine, Went};

use crate::{Ended, Regs, Stop, tables};
use store::{Head, NodeNo, Store};

// A term goes on the pre-term stack.
pub fn push_term(
    store: &mut Store,
    base: usize,
    code: &[u8],
    regs: Regs,
    n: NodeNo,
) -> Result<Regs, Ended>
    requires space { Space store.old.limit base store.old.bytes.now }
    requires fine { Fine regs }
    ensures loan { SameLoan store.old store.new }
    ensures went { Went store.old.limit base code.now regs store.old.bytes.now store.new.bytes.now result (λ p. pushed n.0 (state_of store.old.limit base code.now regs store.old.bytes.now)) }
{
    if regs.terms >= 320 {
        return regs.ends(Stop::Broken);
    }
    store.put_rest(base + 2696 + regs.terms, n.0);
    Ok(Regs {
        terms: regs.terms + 1,
        ..regs
    })
}

// PUSH: the current node.
pub fn push(store: &mut Store, base: usize, code: &[u8], regs: Regs) -> Result<Regs, Ended>
    requires space { Space store.old.limit base store.old.bytes.now }
    requires fine { Fine regs }
    ensures loan { SameLoan store.old store.new }
    ensures went { Went store.old.limit base code.now regs store.old.bytes.now store.new.bytes.now result (λ p. run_on p c.push (state_of store.old.limit base code.now regs store.old.bytes.now)) }
{
    let Some(h) = regs.cur else {
        return regs.ends(Stop::Broken);
    };
    push_term(store, base, code, regs, h)
}

// MAKEANON: a new variable goes on the pre-term stack.
pub fn make_anon(store: &mut Store, base: usize, code: &[u8], regs: Regs) -> Result<Regs, Ended>
    requires space { Space store.old.limit base store.old.bytes.now }
    requires fine { Fine regs }
    ensures loan { SameLoan store.old store.new }
    ensures went { Went store.old.limit base code.now regs store.old.bytes.now store.new.bytes.now result (λ p. run_on p c.make_anon (state_of store.old.limit base code.now regs store.old.bytes.now)) }
{
    if regs.made >= store.limit {
        return regs.ends(Stop::Full);
    }
    let k = NodeNo(regs.made as u16);
    store.put_var(k);
    let r = Regs {
        made: regs.made + 1,
        ..regs
    };
    push_term(store, base, code, r, k)
}

// STOREVAR: a new variable in register v.
pub fn store_var(
    store: &mut Store,
    base: usize,
    code: &[u8],
    regs: Regs,
    v: u8,
) -> Result<Regs, Ended>
    requires space { Space store.old.limit base store.old.bytes.now }
    requires fine { Fine regs }
    ensures loan { SameLoan store.old store.new }
    ensures went { Went store.old.limit base code.now regs store.old.bytes.now store.new.bytes.now result (λ p. run_on p (c.store_var v) (state_of store.old.limit base code.now regs store.old.bytes.now)) }
{
    let at = v as usize;
    if at > regs.vars {
        return regs.ends(Stop::Broken);
    }
    if regs.made >= store.limit {
        return regs.ends(Stop::Full);
    }
    store.put_var(NodeNo(regs.made as u16));
    store.put_rest(base + 2440 + at, regs.made as u16);
    Ok(Regs {
        vars: regs.vars.max(at + 1),
        made: regs.made + 1,
        ..regs
    })
}

// MAKEVAR: the variable of register v goes on the pre-term stack.
pub fn make_var(
    store: &mut Store,
    base: usize,
    code: &[u8],
    regs: Regs,
    v: u8,
) -> Result<Regs, Ended>
    requires space { Space store.old.limit base store.old.bytes.now }
    requires fine { Fine regs }
    ensures loan { SameLoan store.old store.new }
    ensures went { Went store.old.limit base code.now regs store.old.bytes.now store.new.bytes.now result (λ p. run_on p (c.make_var v) (state_of store.old.limit base code.now regs store.old.bytes.now)) }
{
    let at = v as usize;
    if at >= regs.vars {
        return regs.ends(Stop::Broken);
    }
    let k = store.rest(base + 2440 + at);
    push_term(store, base, code, regs, NodeNo(k))
}

// Node k becomes a cell whose arguments are the top of the pre-term stack, the first on top.
fn lay_cell(store: &mut Store, base: usize, terms: usize, k: NodeNo, head: Head, count: u16)
    requires space { Space store.old.limit base store.old.bytes.now }
    requires k_lt_limit { k.0 < store.old.limit }
    requires terms_le_term_bound { (terms ≤ term_bound) × (count ≤ terms) × (count ≤ 8) }
    ensures { Became store.old store.new (set_node k.0 (g.cell (symbol_of head) (take count (pre_terms store.old.limit base store.old.bytes.now terms)))) }
{
    store.put_head(k, head, count);
    for j in 0..count {
        let at = base + 2696 + (terms - 1 - (j as usize));
        let v = store.rest(at);
        store.put_arg(k, j, v);
    }
}

// MAKETERM: a cell whose arguments are the top of the pre-term stack, the first on top, goes there in their place.
pub fn make_term(
    store: &mut Store,
    base: usize,
    code: &[u8],
    regs: Regs,
    head: Head,
) -> Result<Regs, Ended>
    requires space { Space store.old.limit base store.old.bytes.now }
    requires fine { Fine regs }
    ensures loan { SameLoan store.old store.new }
    ensures went { Went store.old.limit base code.now regs store.old.bytes.now store.new.bytes.now result (λ p. run_on p (c.make_term (symbol_of head)) (state_of store.old.limit base code.now regs store.old.bytes.now)) }
{
    let count = tables::arity(store.view(), base, head);
    let n = count as usize;
    if n > 8 || n > regs.terms {
        return regs.ends(Stop::Broken);
    }
    if regs.made >= store.limit {
        return regs.ends(Stop::Full);
    }
    let k = NodeNo(regs.made as u16);
    lay_cell(store, base, regs.terms, k, head, count);
    let r = Regs {
        terms: regs.terms - n,
        made: regs.made + 1,
        ..regs
    };
    push_term(store, base, code, r, k)
}

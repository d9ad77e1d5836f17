// The instructions that write nothing: LOAD, BRANCH, POP, REPLACE, NARROW, CHOICE. What a function answers is what the machine's
// definition says of its instruction; `regs.pc` is behind the instruction already. Those that write are in makes.
ghost use Rattle.std.specs.Prelude.{◌≡◌, ◌+◌, ◌-◌, ◌<◌, ◌≤◌, take, drop};
ghost use Rattle.heap.specs.Graph as g;
ghost use Rattle.store.specs.Rows.{seen};
ghost use Rattle.store.specs.Regions.{graph_of};
ghost use Rattle.engine.specs.Code as c;
ghost use Rattle.engine.specs.Machine as m;
ghost use Rattle.machine.specs.Tables.{Space, code_bound};
ghost use Rattle.machine.specs.View.{cur_of, child_of, state_of};
ghost use Rattle.machine.specs.Contract.{run_on, Fine, Went};

use crate::{Ended, Regs, Stop, code, tables};
use store::{NodeNo, Seen, View};

// What stands at a node; beyond the nodes, a variable.
pub fn node_at(store: View, n: NodeNo) -> Seen
    ensures { result ≡ seen (g.node (graph_of store.entry.limit store.entry.bytes.now) n.0) }
{
    if n.0 as usize >= store.limit {
        return Seen::Var;
    }
    store.look(n)
}

// The argument of a node that a position's step leads to, counted from 1.
pub fn child(store: View, n: NodeNo, step: u8) -> Option<NodeNo>
    ensures { cur_of result ≡ child_of (graph_of store.entry.limit store.entry.bytes.now) n.0 step }
{
    let at = store.follow(n);
    let count = node_at(store, at).count();
    let j = step.saturating_sub(1) as u16;
    if j >= count {
        return None;
    }
    Some(store.arg(at, j))
}

// The steps of a position: `count` bytes of the code from place `from` on, as far as it has them.
fn steps_of(code: &[u8], from: usize, count: u8) -> &[u8]
    requires { from ≤ code_bound + 16 }
    ensures { result.now ≡ take count (drop from code.now) }
{
    let start = from.min(code.len());
    let end = (start + (count as usize)).min(code.len());
    &code[start..end]
}

// The node at a position under a node: its steps are `count` bytes of the code.
pub fn walk(store: View, code: &[u8], from: usize, count: u8, n: NodeNo) -> Option<NodeNo>
    requires from_bound { from ≤ code_bound + 16 }
    ensures { cur_of result ≡ m.at (graph_of store.entry.limit store.entry.bytes.now) n.0 (take count (drop from code.now)) }
{
    let mut h = n;
    let steps = steps_of(code, from, count);
    for step in steps {
        h = child(store, h, *step)?;
    }
    Some(h)
}

// LOAD: the node at a position under the stack's top becomes the current one.
pub fn load(
    store: View,
    base: usize,
    code: &[u8],
    regs: Regs,
    from: usize,
    count: u8,
) -> Result<Regs, Ended>
    requires space { Space store.limit base store.bytes.now }
    requires fine { Fine regs }
    requires from_bound { from ≤ code_bound + 16 }
    ensures { Went store.entry.limit base code.now regs store.entry.bytes.now store.entry.bytes.now result (λ p. run_on p (c.load (take count (drop from code.now))) (state_of store.entry.limit base code.now regs store.entry.bytes.now)) }
{
    if regs.top == 0 {
        return regs.ends(Stop::Broken);
    }
    let Some(h) = walk(store, code, from, count, NodeNo(regs.top - 1)) else {
        return regs.ends(Stop::Broken);
    };
    Ok(Regs {
        cur: Some(h),
        ..regs
    })
}

// BRANCH by the current node: a call is walked instead, a constructor of the type leads to its GO, one of another type is a
// misfit, a variable leads to the first GO.
pub fn branch(store: View, base: usize, code: &[u8], regs: Regs, t: u8) -> Result<Regs, Ended>
    requires space { Space store.limit base store.bytes.now }
    requires fine { Fine regs }
    requires pc_bound { regs.pc ≤ code_bound + 16 }
    ensures { Went store.entry.limit base code.now regs store.entry.bytes.now store.entry.bytes.now result (λ p. run_on p (c.branch t) (state_of store.entry.limit base code.now regs store.entry.bytes.now)) }
{
    let Some(h) = regs.cur else {
        return regs.ends(Stop::Broken);
    };
    let at = store.follow(h);
    match node_at(store, at) {
        Seen::Call(_, _) => regs.ends(Stop::Demand(at)),
        Seen::Con(y, _) => {
            let Some(j) = tables::arm_of(store, base, t, y) else {
                return regs.ends(Stop::Misfits);
            };
            let pc = code::jump_to(code, regs.pc, (j as usize) + 1);
            Ok(Regs { pc, ..regs })
        }
        Seen::Var => {
            let pc = code::jump_to(code, regs.pc, 0);
            Ok(Regs { pc, ..regs })
        }
        Seen::Fwd(_) => regs.ends(Stop::Broken),
    }
}

// POP: the top of the pre-term stack becomes the current node.
pub fn pop(store: View, base: usize, code: &[u8], regs: Regs) -> Result<Regs, Ended>
    requires space { Space store.limit base store.bytes.now }
    requires fine { Fine regs }
    ensures { Went store.entry.limit base code.now regs store.entry.bytes.now store.entry.bytes.now result (λ p. run_on p c.pop (state_of store.entry.limit base code.now regs store.entry.bytes.now)) }
{
    if regs.terms == 0 {
        return regs.ends(Stop::Broken);
    }
    let k = store.rest(base + 2696 + (regs.terms - 1));
    Ok(Regs {
        cur: Some(NodeNo(k)),
        terms: regs.terms - 1,
        ..regs
    })
}

// REPLACE: the call on the stack's top becomes a forward to the current node.
pub fn replace(store: View, base: usize, code: &[u8], regs: Regs) -> Result<Regs, Ended>
    requires space { Space store.limit base store.bytes.now }
    requires fine { Fine regs }
    ensures { Went store.entry.limit base code.now regs store.entry.bytes.now store.entry.bytes.now result (λ p. run_on p c.replace (state_of store.entry.limit base code.now regs store.entry.bytes.now)) }
{
    if regs.top == 0 {
        return regs.ends(Stop::Broken);
    }
    let Some(h) = regs.cur else {
        return regs.ends(Stop::Broken);
    };
    let at = store.follow(NodeNo(regs.top - 1));
    regs.ends(Stop::Becomes(at, h))
}

// NARROW: the current node, a variable, has the pre-term stack's terms as its alternatives.
pub fn narrow(store: View, base: usize, code: &[u8], regs: Regs) -> Result<Regs, Ended>
    requires space { Space store.limit base store.bytes.now }
    requires fine { Fine regs }
    ensures { Went store.entry.limit base code.now regs store.entry.bytes.now store.entry.bytes.now result (λ p. run_on p c.narrow (state_of store.entry.limit base code.now regs store.entry.bytes.now)) }
{
    let Some(h) = regs.cur else {
        return regs.ends(Stop::Broken);
    };
    let at = store.follow(h);
    regs.ends(Stop::Parts(at))
}

// CHOICE: the call on the stack's top has the pre-term stack's terms as its alternatives.
pub fn choice(store: View, base: usize, code: &[u8], regs: Regs) -> Result<Regs, Ended>
    requires space { Space store.limit base store.bytes.now }
    requires fine { Fine regs }
    ensures { Went store.entry.limit base code.now regs store.entry.bytes.now store.entry.bytes.now result (λ p. run_on p c.choice (state_of store.entry.limit base code.now regs store.entry.bytes.now)) }
{
    if regs.top == 0 {
        return regs.ends(Stop::Broken);
    }
    let at = store.follow(NodeNo(regs.top - 1));
    regs.ends(Stop::Parts(at))
}

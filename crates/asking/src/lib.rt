// The question's term, built at the first free numbers: fresh variables first, then its records from the last to the first.
#![tactic(auto)]

ghost use Rattle.std.specs.Prelude.{◌≡◌, ℕ, suc, ◌+◌, ◌*◌, ◌<◌, ◌≤◌, ◌∷◌, length, get_or, take};
ghost use Rattle.heap.specs.Build.{up_from};
ghost use Rattle.store.specs.Rows.{symbol_of};
ghost use Rattle.store.specs.Roots.{roots_of};
ghost use Rattle.store.specs.Regions.{rest_of};
ghost use Rattle.store.specs.Whole.{SameLoan};
ghost use Rattle.asking.specs.Question.{Space, AskedOf, pre_terms, cells, symbol_at, arity_by, CanStep, Stepped, VarsPut, WalkDone, Asked};

use book::{ConNo, FunNo, Kind};
use store::{Head, NodeNo, Roots, Store, View};

// How far the walk over the records is: nodes made, handles pending.
#[derive(Clone, Copy)]
pub struct Walk {
    pub made: usize,
    pub depth: usize,
}

// What was built of a question: how many nodes were made, and the computation's handles; its stack is empty.
#[derive(Clone, Copy)]
pub struct Built {
    pub made: usize,
    pub roots: Roots,
}

// How many of the n records of the term make a node: all but the FRESHs.
pub fn count_cells(q: &[u8], n: usize) -> usize
    requires { 2 + 2 * n ≤ length q.now }
    ensures { (result ≡ cells q.now 2 n) × (result ≤ n) }
{
    let mut count = 0;
    for k in 0..n {
        if q[2 + 2 * k] != Kind::Fresh as u8 {
            count += 1;
        }
    }
    count
}

// The first nodes become variables.
pub fn put_vars(store: &mut Store, vars: usize)
    requires vars_le_limit { vars ≤ store.old.limit }
    ensures loan { SameLoan store.old store.new }
    ensures vars { VarsPut store.old.limit vars store.old.bytes.now store.new.bytes.now }
{
    for i in 0..vars {
        store.put_var(NodeNo(i as u16));
    }
}

// How many arguments a symbol takes, by the tables.
pub fn arity_of(store: View, base: usize, head: Head) -> u16
    requires { Space store.limit base store.bytes.now }
    ensures { result ≡ arity_by base (rest_of store.entry.limit store.entry.bytes.now) (symbol_of head) }
{
    match head {
        Head::Makes(c) => store.rest(base + 768 + c.0 as usize),
        Head::Calls(f) => store.rest(base + 512 + f.0 as usize),
    }
}

// The symbol of a CON or a CALL.
pub fn head_of(kind: u8, n: u8) -> Head
    ensures { symbol_of result ≡ symbol_at kind n }
{
    if kind == Kind::Con as u8 {
        Head::Makes(ConNo(n))
    } else {
        Head::Calls(FunNo(n))
    }
}

// The first of the pending handles, the last that came first.
pub fn take_terms(store: View, base: usize, depth: usize, a: u16) -> [u16; 8]
    requires space { Space store.limit base store.bytes.now }
    requires a_bound { (a ≤ 8) × (a ≤ depth) × (depth ≤ 320) }
    ensures { take a result ≡ take a (pre_terms store.entry.limit base store.entry.bytes.now depth) }
{
    let mut args = [0; 8];
    let n = a as usize;
    for j in 0..n {
        args[j] = store.rest(base + 2696 + (depth - 1 - j));
    }
    args
}

// One record: a FRESH's variable is pending; a symbol takes its arguments from the pending handles, and its node is pending.
pub fn step(store: &mut Store, base: usize, kind: u8, n: u8, w: Walk) -> Walk
    requires { CanStep store.old.limit base w.made w.depth kind n store.old.bytes.now }
    ensures loan { SameLoan store.old store.new }
    ensures stepped { Stepped store.old.limit base w.made w.depth kind n store.old.bytes.now store.new.bytes.now result }
{
    let top = base + 2696;
    let Walk { made, depth } = w;
    if kind == Kind::Fresh as u8 {
        store.put_rest(top + depth, n as u16);
        return Walk {
            made,
            depth: depth + 1,
        };
    }
    let head = head_of(kind, n);
    let view = store.view();
    let a = arity_of(view, base, head);
    let args = take_terms(view, base, depth, a);
    let node = made as u16;
    store.put_cell(NodeNo(node), head, args, a);
    let d = depth - a as usize;
    store.put_rest(top + d, node);
    Walk {
        made: made + 1,
        depth: d + 1,
    }
}

// The n records of the term, from the last to the first.
pub fn walk_back(store: &mut Store, base: usize, q: &[u8], n: usize, vars: usize) -> Walk
    requires space { Space store.old.limit base store.old.bytes.now }
    requires asked_of { AskedOf store.old.limit base store.old.bytes.now q.now }
    requires q_len { (length q.now ≡ 2 + 2 * n) × (vars ≡ get_or q.now 1 0) × (vars + cells q.now 2 n ≤ store.old.limit) }
    ensures loan { SameLoan store.old store.new }
    ensures done { (x : AskedOf store.old.limit base store.old.bytes.now q.now) → WalkDone store.old.limit base x.right store.old.bytes.now store.new.bytes.now result }
{
    let mut w = Walk {
        made: vars,
        depth: 0,
    };
    for k in (0..n).rev() {
        let at = 2 + 2 * k;
        w = step(store, base, q[at], q[at + 1], w);
    }
    w
}

// The handles of a question: its value, then the variables.
pub fn first_roots(value: u16, vars: usize) -> Roots
    requires { vars ≤ 8 }
    ensures { (result.n ≡ suc vars) × (roots_of result ≡ value ∷ up_from 0 vars) }
{
    let mut at = [0; 9];
    at[0] = value;
    for j in 0..vars {
        at[j + 1] = j as u16;
    }
    Roots { n: vars + 1, at }
}

// An accepted question's computation at the first free numbers; where its nodes do not fit, nothing is written.
pub fn build_question(store: &mut Store, base: usize, q: &[u8]) -> Option<Built>
    requires space { Space store.old.limit base store.old.bytes.now }
    requires asked_of { AskedOf store.old.limit base store.old.bytes.now q.now }
    ensures loan { SameLoan store.old store.new }
    ensures asked { (x : AskedOf store.old.limit base store.old.bytes.now q.now) → Asked store.old.limit base x store.new.bytes.now result }
{
    let vars = q[1] as usize;
    let n = (q.len() - 2) / 2;
    let cells = count_cells(q, n);
    if store.limit < vars + cells {
        return None;
    }
    put_vars(store, vars);
    let w = walk_back(store, base, q, n, vars);
    let value = store.rest(base + 2696);
    Some(Built {
        made: w.made,
        roots: first_roots(value, vars),
    })
}

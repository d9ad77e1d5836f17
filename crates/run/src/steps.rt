// One step of a run: the pool is empty, or the budget is used, or the front computation takes its turn.
// Here, in order: the state without its front; what follows a turn: it goes on, has alternatives, is a value; the step.
ghost use Rattle.std.specs.Prelude.{◌≡◌, ◌+◌, ◌<◌, ◌≤◌, length};
ghost use Rattle.store.specs.Regions.{AllRoom, graph_of, Room};
ghost use Rattle.heap.specs.Graph.{write_each};
ghost use Rattle.store.specs.Roots.{roots_of};
ghost use Rattle.pool.specs.Ring.{Sized};
ghost use Rattle.copier.specs.Listed.{Clean};
ghost use Rattle.writer.specs.Walk.{Reads};
ghost use Rattle.machine.specs.Tables.{code_bound};
ghost use Rattle.run.specs.Given.{limits_of};
ghost use Rattle.run.specs.Between.{Bounded, Runs, StepTaken};
ghost use Rattle.run.specs.Arms.{after_turn, WentOn, Spread, Valued};

use crate::{Answer, Limits, State};
use pool::Held;
use store::Store;
use turns::What;

// A turn is taken: the front is gone, and there is a turn more.
fn taken(l: Limits, st: State) -> State
    requires { (l.pool ≤ 1024) × (st.head < l.pool) × (st.turns < 1000000) × (1 ≤ st.waiting) }
    ensures { result ≡ after_turn l.pool st }
{
    State {
        head: pool::next_place(st.head, l.pool),
        waiting: st.waiting - 1,
        turns: st.turns + 1,
        ..st
    }
}

// The computation goes on: it waits behind the others.
fn go_on(work: &mut [u8], l: Limits, n: usize, st: State, held: Held, made: usize) -> State
    requires all_room { AllRoom l.nodes l.pool work.old }
    requires head_lt_pool { (st.head < l.pool) × (st.waiting < l.pool) }
    requires sized { Sized held.roots × (held.roots.n ≡ n) }
    ensures { WentOn (limits_of l) n st held made work.old work.new result }
{
    let mut store = Store {
        bytes: work,
        limit: l.nodes,
    };
    pool::push(&mut store, l.pool, n, st.head, st.waiting, held);
    State {
        waiting: st.waiting + 1,
        made,
        ..st
    }
}

// The computation has alternatives: they wait behind the others, if there are places.
fn spread(
    work: &mut [u8],
    l: Limits,
    n: usize,
    st: State,
    count: usize,
    made: usize,
) -> Result<State, Answer>
    requires all_room { AllRoom l.nodes l.pool work.old }
    requires head_lt_pool { (st.head < l.pool) × (st.waiting < l.pool) × (count ≤ 32) }
    requires le_n { (1 ≤ n) × (n ≤ 9) × (st.begun ≤ 32000001) × (st.split ≤ 1000000) }
    ensures { Spread (limits_of l) n st count made work.old work.new result }
{
    if l.pool < st.waiting + count {
        return Err(Answer::NoPlaces);
    }
    let mut store = Store {
        bytes: work,
        limit: l.nodes,
    };
    rounds::push_all(&mut store, l.pool, n, st.head, st.waiting, count);
    Ok(State {
        waiting: st.waiting + count,
        made,
        begun: st.begun + count,
        split: st.split + 1,
        ..st
    })
}

// The computation is a value: its record is written, if it has room.
fn write_value(
    work: &mut [u8],
    results: &mut [u8],
    l: Limits,
    st: State,
    held: Held,
) -> Result<State, Answer>
    requires room { Room l.nodes work.old }
    requires reads { Reads (graph_of l.nodes work.old) (roots_of held.roots) }
    requires clean { Clean l.nodes work.old × (held.roots.n ≤ 9) × (st.turns ≤ 1000000) × (st.values ≤ 1000000) }
    requires written_le_results { (st.written ≤ l.results) × (l.results ≤ 65536) × (l.results ≤ length results.old) }
    ensures { Valued (limits_of l) st (write_each l.nodes (graph_of l.nodes work.old) (roots_of held.roots)) work.old work.new results.old results.new result }
{
    let mut store = Store {
        bytes: work,
        limit: l.nodes,
    };
    let Some(written) = rounds::put_result(
        &mut store, held.roots, results, st.written, l.results, st.turns,
    ) else {
        return Err(Answer::NoRoom);
    };
    Ok(State {
        values: st.values + 1,
        written,
        ..st
    })
}

// One step. Before the front takes its turn, the forwards from its stack's top are shortened.
pub fn step(
    work: &mut [u8],
    code: &[u8],
    results: &mut [u8],
    l: Limits,
    n: usize,
    st: State,
) -> Result<State, Answer>
    requires bounded { Bounded (limits_of l) n st work.old results.old }
    requires code_len_bound { length code.now ≤ code_bound }
    requires runs { Runs (limits_of l) n code.now st work.old results.old }
    ensures { StepTaken (limits_of l) n code.now st work.old work.new results.old results.new result }
{
    if st.waiting == 0 {
        return Err(Answer::Emptied);
    }
    if l.budget <= st.turns {
        return Err(Answer::Spent);
    }
    let mut store = Store {
        bytes: work,
        limit: l.nodes,
    };
    let held = pool::front(store.view(), l.pool, n, st.head);
    forwards::shorten(&mut store, held.top);
    let t = turns::take_turn(&mut store, 20 * l.pool, code, st.made, held);
    let then = taken(l, st);
    match t.what {
        What::Went => Ok(go_on(work, l, n, then, Held { top: t.top, ..held }, t.made)),
        What::Split(count) => spread(work, l, n, then, count, t.made),
        What::Wrote => write_value(work, results, l, then, held),
        What::Failed => Ok(State {
            failed: then.failed + 1,
            ..then
        }),
        What::Misfit => Ok(State {
            misfits: then.misfits + 1,
            ..then
        }),
        What::NoneLeft | What::Lost => Err(Answer::NoNodes),
    }
}

// A question asked: its computation is built and waits alone, and the run goes on from there.
ghost use Rattle.std.specs.Prelude.{◌≡◌, ◌≤◌, length};
ghost use Rattle.machine.specs.Tables.{code_bound};
ghost use Rattle.run.specs.Given.{limits_of};
ghost use Rattle.run.specs.Questions.{Roomy, Asks, AskDone};

use crate::loops::run_from;
use crate::{Answer, Done, Limits, State};
use pool::Held;
use store::Store;

// A question asked.
pub fn ask(work: &mut [u8], code: &[u8], results: &mut [u8], l: Limits, question: &[u8]) -> Done
    requires roomy { Roomy (limits_of l) work.old results.old }
    requires code_len_bound { length code.now ≤ code_bound }
    requires asks { Asks (limits_of l) code.now work.old question.now }
    ensures { AskDone (limits_of l) code.now work.old question.now results.old results.new result }
{
    let mut store = Store {
        bytes: work,
        limit: l.nodes,
    };
    rounds::clear(&mut store);
    let Some(built) = asking::build_question(&mut store, 20 * l.pool, question) else {
        return Done {
            answer: Answer::NoNodes,
            state: State::default(),
        };
    };
    let roots = built.roots;
    let n = roots.n;
    pool::push(&mut store, l.pool, n, 0, 0, Held { roots, top: 0 });
    let st = State {
        waiting: 1,
        made: built.made,
        begun: 1,
        ..State::default()
    };
    run_from(work, code, results, l, n, st)
}

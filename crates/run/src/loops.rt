// A run from a state on, step by step, until one ends it.
ghost use Rattle.std.specs.Prelude.{◌≡◌, ◌≤◌, length};
ghost use Rattle.machine.specs.Tables.{code_bound};
ghost use Rattle.run.specs.Given.{limits_of};
ghost use Rattle.run.specs.Between.{Bounded, Runs, RunDone};

use crate::steps::step;
use crate::{Answer, Done, Limits, State};

// Steps until one ends the run; the budget bounds how many there are.
pub fn run_from(
    work: &mut [u8],
    code: &[u8],
    results: &mut [u8],
    l: Limits,
    n: usize,
    st: State,
) -> Done
    requires bounded { Bounded (limits_of l) n st work.old results.old × (st.turns ≡ 0) }
    requires code_len_bound { length code.now ≤ code_bound }
    requires runs { Runs (limits_of l) n code.now st work.old results.old }
    ensures { RunDone (limits_of l) n code.now st work.old results.old results.new result }
{
    let mut at = st;
    for _ in 0..l.budget + 1 {
        match step(work, code, results, l, n, at) {
            Ok(next) => at = next,
            Err(answer) => return Done { answer, state: at },
        }
    }
    Done {
        answer: Answer::Spent,
        state: at,
    }
}

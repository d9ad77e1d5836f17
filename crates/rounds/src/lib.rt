// What a run does around its turns: memory made ready once, alternatives that join the pool, results that are written.
// The modules: fresh, joins, results. specs/ has what each of them leaves.
// Not here: the turn (turns), the run (run).
#![tactic(auto)]

mod fresh;
mod joins;
mod results;

pub use fresh::clear;
pub use joins::push_all;
pub use results::put_result;

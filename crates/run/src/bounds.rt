// Limits and lent memory: in range, and as long as is asked.
// Here, in order: the limits; the work memory asked; the lent memories; both.
ghost use Rattle.std.specs.Prelude.{◌≡◌, ◌&&◌, ◌≤◌};
ghost use Rattle.engine.specs.Run.{in_range, work_size, lent_fits};
ghost use Rattle.run.specs.Given.{limits_of, lent_of};

use crate::Limits;

// The limits are in range.
#[tactic(auto, unfolding(engine::specs::Run::in_range))]
fn in_range(l: Limits) -> bool
    ensures { result ≡ in_range (limits_of l) }
{
    1 <= l.nodes
        && l.nodes <= 16384
        && 1 <= l.pool
        && l.pool <= 1024
        && l.budget <= 1000000
        && l.results <= 65536
        && l.code <= 262144
}

// The work memory asked, in bytes.
#[tactic(auto, unfolding(engine::specs::Run::work_size))]
pub fn work_size(l: Limits) -> usize
    requires { (l.nodes ≤ 16384) × (l.pool ≤ 1024) }
    ensures { result ≡ work_size (limits_of l) }
{
    40 * l.nodes + 40 * l.pool + 8192
}

// Each lent memory is as long as is asked.
#[tactic(auto, unfolding(engine::specs::Run::lent_fits))]
fn long_enough(l: Limits, work: usize, code: usize, results: usize) -> bool
    requires { (l.nodes ≤ 16384) × (l.pool ≤ 1024) }
    ensures { result ≡ lent_fits (limits_of l) (lent_of work code results) }
{
    work_size(l) <= work && l.code <= code && l.results <= results
}

// The limits are in range, and each lent memory is as long as is asked.
#[tactic(auto, unfolding(engine::specs::Run::in_range))]
pub fn fit(l: Limits, work: usize, code: usize, results: usize) -> bool
    ensures { result ≡ (in_range (limits_of l) && lent_fits (limits_of l) (lent_of work code results)) }
{
    in_range(l) && long_enough(l, work, code, results)
}

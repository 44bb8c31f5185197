// Run and settled run: from a series, a preparing step, a rollup and settings to one number per output time and a count.
// On a refusal every slice is as it was.
#![tactic(auto)]

ghost use Rattle.std.specs.Prelude.{◌≡◌};
ghost use Rattle.series.specs.Answers.{outcome, reply};
ghost use Rattle.run.specs.Run.{lent, run_of, settled_run_of};

use rollup::handler::RollupHandler;
use series::{Refusal, Series};
use settings::{RollupConfig, SettledConfig};
use steps::PreFunction;

mod call;
mod checks;
mod execute;
mod fill;

// The four slices are lent one by one. Of a struct that holds them by `&mut` these functions prove the same, but what harzoulin promises of
// its slices was not proved over such a struct.

// The number of samples counted, and the figures over the grid of rc, with the window and the reach that the remaining times and rc settle to.
pub fn run(
    series: &Series,
    pre: PreFunction,
    handler: RollupHandler,
    rc: RollupConfig,
    dst_values: &mut [u64],
    prepared: &mut [u64],
    remaining: &mut [i64],
    work: &mut [f64],
) -> Result<u64, Refusal>
    ensures { outcome (reply result) (lent dst_values.new prepared.new remaining.new work.new) ≡ run_of series.now.times series.now.values pre handler rc (lent dst_values.old prepared.old remaining.old work.old) }
{
    call::call(
        series, pre, handler, rc, dst_values, prepared, remaining, work,
    )
}

// The number of samples counted, and the figures over the grid of sc, with the window and the reach that it is given.
pub fn settled_run(
    series: &Series,
    pre: PreFunction,
    handler: RollupHandler,
    sc: SettledConfig,
    dst_values: &mut [u64],
    prepared: &mut [u64],
    remaining: &mut [i64],
    work: &mut [f64],
) -> Result<u64, Refusal>
    ensures { outcome (reply result) (lent dst_values.new prepared.new remaining.new work.new) ≡ settled_run_of series.now.times series.now.values pre handler sc (lent dst_values.old prepared.old remaining.old work.old) }
{
    call::call(
        series, pre, handler, sc, dst_values, prepared, remaining, work,
    )
}

// The values of a checked series after a preparing step.
#![tactic(auto)]

ghost use Rattle.std.specs.Prelude.{◌≡◌, length};
ghost use Rattle.ieee.specs.Patterns.{floats, patterns};
ghost use Rattle.series.specs.Answers.{outcome, reply};
ghost use Rattle.prepare.specs.Prepare.{prepare_of};
ghost use Rattle.steps.specs.Steps.{prepared_of};

use series::{AcceptedSeries, AcceptedTimes, Numbers, Refusal, Series, check_series};
use steps::PreFunction;

// The values at times after the step, in a slice of their number. A match sees that each step has its pass; the gate takes no
// function that hands out another one.
pub fn apply_to<N: Numbers>(
    times: &AcceptedTimes,
    values: &N,
    pre: PreFunction,
    prepared: &mut [u64],
)
    requires same { length times.now.slice.now ≡ length (N.numbers values.now) }
    requires room { length prepared.old ≡ length (N.numbers values.now) }
    ensures { prepared.new ≡ patterns (prepared_of pre times.now.slice.now (N.numbers values.now)) }
{
    let timestamps = times.slice;
    match pre {
        PreFunction::None => values.write_to(prepared),
        PreFunction::Resets => steps::remove_counter_resets(values, prepared),
        PreFunction::Delta => steps::delta_values(values, prepared),
        PreFunction::Deriv => steps::deriv_values(values, timestamps, prepared),
        PreFunction::Intervals => steps::calc_sample_intervals_pre_fn(timestamps, prepared),
        PreFunction::ResetsOnce => steps::remove_counter_resets_once(values, prepared),
    }
}

// The values of a series after the step, in a slice of their number.
pub fn apply(series: &AcceptedSeries, pre: PreFunction, prepared: &mut [u64])
    requires { length prepared.old ≡ length series.now.values.now }
    ensures { prepared.new ≡ patterns (prepared_of pre series.now.timestamps.now (floats series.now.values.now)) }
{
    apply_to(&series.times(), &series.finite_values(), pre, prepared);
}

// Writes the values after the step to the prepared slice's first entries, or refuses by rows 1 to 5 and 13 and writes nothing.
pub fn prepare(series: &Series, pre: PreFunction, prepared: &mut [u64]) -> Result<(), Refusal>
    ensures { outcome (reply result) prepared.new ≡ prepare_of pre series.now.times series.now.values prepared.old }
{
    check_series(series)?;
    let accepted = AcceptedSeries {
        timestamps: series.timestamps,
        values: series.values,
    };
    let n = accepted.values.len();
    if prepared.len() < n {
        return Err(Refusal::PreparedShort);
    }
    apply(&accepted, pre, &mut prepared[..n]);
    Ok(())
}

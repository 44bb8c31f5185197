// The rollups of rollup_fns.rs that read a window's times. Each answers NaN for a window that does not settle it.

ghost use Rattle.std.specs.Prelude.{◌≡◌, ◌-◌, ◌≤◌, length};
ghost use Rattle.std.specs.Float.Ieee.{ne};
ghost use Rattle.math.specs.Deviation.{stddev_of};
ghost use Rattle.ieee.specs.Patterns.{floats};
ghost use Rattle.window.specs.Window.{up_to_last};
ghost use Rattle.time_rollups.specs.RollupFns.{at_least, changed_up_to, extreme_time, lag_of, lifetime_of, predict_from, predict_linear_of, scrape_interval_of, seconds_or_nan, tfirst_of, tlast_change_of, tlast_of, tmax_of, tmin_of, zscore_from, zscore_over_time_of};

use crate::ranged::RangedWindow;
use ieee::nan;
use regression::Line;
use value_rollups::rollup_fns::rollup_avg;
use window::types::{
    RollupFuncArg, first, first_or, init, last, last_or, seconds_between, up_to_last,
};

// Whether v is no less than m, or, where the way is down, no greater.
fn reaches(down: bool, m: f64, v: f64) -> bool
    ensures { result ≡ at_least down m v }
{
    if down { v <= m } else { m <= v }
}

// The time of the furthest value that way, the last of equals, in seconds.
fn extreme_time(down: bool, values: &[u64], timestamps: &[i64]) -> f64
    ensures { result ≡ extreme_time down (floats values.now) timestamps.now }
{
    if values.len() == 0 {
        return nan();
    }
    let mut furthest = first(values);
    let mut time = first_or(timestamps, 0);
    for (b, t) in values.iter().zip(timestamps) {
        let v = ieee::value_of(*b);
        if reaches(down, furthest, v) {
            furthest = v;
            time = *t;
        }
    }
    ieee::seconds(time)
}

// `rollup_tmin`, `rollup_tmax`, `rollup_tfirst`, `rollup_tlast` and `rollup_tlast_change` are not of a `RangedWindow`: they ask for no range.

// The last time of the minimum, in seconds.
pub fn rollup_tmin(rfa: RollupFuncArg, values: &[u64], timestamps: &[i64]) -> f64
    ensures { result ≡ tmin_of (floats values.now) timestamps.now }
{
    extreme_time(true, values, timestamps)
}

// The last time of the maximum, in seconds.
pub fn rollup_tmax(rfa: RollupFuncArg, values: &[u64], timestamps: &[i64]) -> f64
    ensures { result ≡ tmax_of (floats values.now) timestamps.now }
{
    extreme_time(false, values, timestamps)
}

// A time in seconds, NaN where there is none.
fn seconds_or_nan(time: Option<i64>) -> f64
    ensures { result ≡ seconds_or_nan time }
{
    match time {
        Some(t) => ieee::seconds(t),
        None => nan(),
    }
}

// The first time, in seconds.
pub fn rollup_tfirst(rfa: RollupFuncArg, timestamps: &[i64]) -> f64
    ensures { result ≡ tfirst_of timestamps.now }
{
    seconds_or_nan(timestamps.first().copied())
}

// The last time, in seconds.
pub fn rollup_tlast(rfa: RollupFuncArg, timestamps: &[i64]) -> f64
    ensures { result ≡ tlast_of timestamps.now }
{
    seconds_or_nan(timestamps.last().copied())
}

// How many values stand up to the last one that differs from x.
fn differing_up_to(values: &[u64], x: f64) -> usize
    ensures { result ≡ up_to_last (λ v. ne v x) (floats values.now) }
{
    up_to_last(values, |b| ieee::value_of(*b) != x)
}

// How many values stand up to the last one that differs from the window's last value.
fn changed_up_to(values: &[u64]) -> usize
    ensures counted { result ≡ changed_up_to (floats values.now) }
    ensures within { result ≤ length values.now - 1 }
{
    differing_up_to(init(values), last(values))
}

// The time from which the values equal the last one, in seconds; NaN where the predecessor does too.
pub fn rollup_tlast_change(rfa: RollupFuncArg, values: &[u64], timestamps: &[i64]) -> f64
    requires { length timestamps.now ≡ length values.now }
    ensures { result ≡ tlast_change_of rfa.prev_value (floats values.now) timestamps.now }
{
    if values.len() == 0 {
        return nan();
    }
    let i = changed_up_to(values);
    if i > 0 {
        return ieee::seconds(timestamps[i]);
    }
    let last_value = last(values);
    if rfa.prev_value == last_value {
        return nan();
    }
    ieee::seconds(first_or(timestamps, 0))
}

// The seconds from the predecessor, or else from the first reading, to the last.
pub fn rollup_lifetime(ranged: &RangedWindow) -> f64
    ensures { result ≡ lifetime_of ranged.now.rfa ranged.now.timestamps.now }
{
    let RangedWindow {
        rfa,
        timestamps,
        ..
    } = *ranged;
    if ieee::is_nan(rfa.prev_value) {
        if timestamps.len() < 2 {
            return nan();
        }
        return seconds_between(first_or(timestamps, 0), last_or(timestamps, 0));
    }
    if timestamps.len() == 0 {
        return nan();
    }
    seconds_between(rfa.prev_timestamp, last_or(timestamps, 0))
}

// The average interval between readings.
pub fn rollup_scrape_interval(ranged: &RangedWindow) -> f64
    ensures { result ≡ scrape_interval_of ranged.now.rfa ranged.now.timestamps.now }
{
    let RangedWindow {
        rfa,
        timestamps,
        ..
    } = *ranged;
    if ieee::is_nan(rfa.prev_value) {
        if timestamps.len() < 2 {
            return nan();
        }
        return rollup_lifetime(ranged) / ieee::of_count(timestamps.len() - 1);
    }
    rollup_lifetime(ranged) / ieee::of_count(timestamps.len())
}

// The seconds from the output time back to the last reading.
pub fn rollup_lag(ranged: &RangedWindow) -> f64
    ensures { result ≡ lag_of ranged.now.rfa ranged.now.timestamps.now }
{
    let RangedWindow {
        rfa,
        timestamps,
        ..
    } = *ranged;
    if timestamps.len() == 0 {
        if ieee::is_nan(rfa.prev_value) {
            return nan();
        }
        return seconds_between(rfa.prev_timestamp, rfa.curr_timestamp);
    }
    seconds_between(last_or(timestamps, 0), rfa.curr_timestamp)
}

// d in units of the values' deviation, 0.0 where d is.
#[tactic(auto, unfolding(crate::specs::RollupFns::zscore_from))]
fn zscore_of(d: f64, values: &[u64]) -> f64
    ensures { result ≡ zscore_from d (stddev_of (floats values.now)) }
{
    if d == 0.0 {
        return 0.0;
    }
    d / math::deviation::stddev(values)
}

// How far the last value lies from the average, in standard deviations.
#[tactic(auto, unfolding(crate::specs::RollupFns::zscore_over_time_of))]
pub fn rollup_zscore_over_time(ranged: &RangedWindow) -> f64
    ensures { result ≡ zscore_over_time_of ranged.now.rfa (floats ranged.now.values.now) ranged.now.timestamps.now }
{
    let RangedWindow { rfa, values, .. } = *ranged;
    let scrape_interval = rollup_scrape_interval(ranged);
    let lag = rollup_lag(ranged);
    if ieee::is_nan(scrape_interval) {
        return nan();
    }
    if ieee::is_nan(lag) {
        return nan();
    }
    if lag > scrape_interval {
        return nan();
    }
    zscore_of(last(values) - rollup_avg(rfa, values), values)
}

// The value of the regression's line some seconds after the output time.
#[tactic(auto, unfolding(crate::specs::RollupFns::predict_from))]
fn predict(line: Line, secs: f64) -> f64
    ensures { result ≡ predict_from line secs }
{
    if ieee::is_nan(line.v) {
        return nan();
    }
    line.v + line.k * secs
}

#[tactic(auto, unfolding(crate::specs::RollupFns::predict_linear_of))]
pub fn rollup_predict_linear(ranged: &RangedWindow, secs: f64) -> f64
    ensures { result ≡ predict_linear_of ranged.now.rfa (floats ranged.now.values.now) ranged.now.timestamps.now secs }
{
    let RangedWindow {
        rfa,
        values,
        timestamps,
    } = *ranged;
    predict(
        regression::linear_regression(values, timestamps, rfa.curr_timestamp),
        secs,
    )
}

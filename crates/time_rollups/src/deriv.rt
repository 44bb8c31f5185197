// The rollups of deriv.rs: how fast a series grows, a second.

ghost use Rattle.std.specs.Prelude.{◌≡◌, length};
ghost use Rattle.window.specs.Types.{AllInRange, InRange};
ghost use Rattle.ieee.specs.Patterns.{floats};
ghost use Rattle.time_rollups.specs.Deriv.{deriv_fast_of, deriv_slow_of, ideriv_of, slope_from};

use crate::ranged::RangedWindow;
use ieee::nan;
use window::types::{count_up_to, first, first_or, last, last_or, seconds_between, value_at};

// The slope of the regression's line.
#[tactic(auto, unfolding(crate::specs::Deriv::deriv_slow_of))]
pub fn rollup_deriv_slow(ranged: &RangedWindow) -> f64
    ensures { result ≡ deriv_slow_of ranged.now.rfa (floats ranged.now.values.now) ranged.now.timestamps.now }
{
    let RangedWindow {
        rfa,
        values,
        timestamps,
    } = *ranged;
    let line = regression::linear_regression(values, timestamps, rfa.curr_timestamp);
    line.k
}

// The change a second from a reading to the window's last.
#[tactic(auto, unfolding(crate::specs::Deriv::slope_from))]
fn slope(v_start: f64, t_start: i64, values: &[u64], timestamps: &[i64]) -> f64
    requires start { InRange t_start }
    requires times { AllInRange timestamps.now }
    ensures { result ≡ slope_from v_start t_start (floats values.now) timestamps.now }
{
    let dv = last(values) - v_start;
    dv / seconds_between(t_start, last_or(timestamps, 0))
}

// From the predecessor, or else from the window's first reading, to its last.
pub fn rollup_deriv_fast(ranged: &RangedWindow) -> f64
    ensures { result ≡ deriv_fast_of ranged.now.rfa (floats ranged.now.values.now) ranged.now.timestamps.now }
{
    let RangedWindow {
        rfa,
        values,
        timestamps,
    } = *ranged;
    if ieee::is_nan(rfa.prev_value) {
        if values.len() < 2 {
            return nan();
        }
        return slope(first(values), first_or(timestamps, 0), values, timestamps);
    }
    if values.len() == 0 {
        return 0.0;
    }
    slope(rfa.prev_value, rfa.prev_timestamp, values, timestamps)
}

// From the last reading before the window's last time, or else from the predecessor, to the last.
pub fn rollup_ideriv(ranged: &RangedWindow) -> f64
    requires lengths { length ranged.now.timestamps.now ≡ length ranged.now.values.now }
    ensures { result ≡ ideriv_of ranged.now.rfa (floats ranged.now.values.now) ranged.now.timestamps.now }
{
    let RangedWindow {
        rfa,
        values,
        timestamps,
    } = *ranged;
    if values.len() == 0 {
        return nan();
    }
    let count = count_up_to(timestamps, last_or(timestamps, 0));
    if count > 0 {
        return slope(
            value_at(values, count - 1),
            timestamps[count - 1],
            values,
            timestamps,
        );
    }
    if ieee::is_nan(rfa.prev_value) {
        if values.len() < 2 {
            return nan();
        }
        return 0.0;
    }
    slope(rfa.prev_value, rfa.prev_timestamp, values, timestamps)
}

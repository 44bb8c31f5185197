// The rollup of integrate.rs: each value times the seconds it stood.

ghost use Rattle.std.specs.Prelude.{◌≡◌, ◌≤◌, ◌^◌, nat_abs};
ghost use Rattle.window.specs.Types.{AllInRange, InRange};
ghost use Rattle.ieee.specs.Patterns.{floats};
ghost use Rattle.window.specs.Window.{readings};
ghost use Rattle.time_rollups.specs.Integrate.{area_from, integrate_of};

use crate::ranged::RangedWindow;
use ieee::nan;
use window::types::{first, first_or, rest, seconds_between, value_at};

// The area from a reading over the window up to the time end.
fn area(v: f64, t: i64, values: &[u64], timestamps: &[i64], end: i64) -> f64
    requires start { nat_abs t ≤ 2 ^ 55 }
    requires times { AllInRange timestamps.now }
    requires within { InRange end }
    ensures { result ≡ area_from v t (readings (floats values.now) timestamps.now) end }
{
    let mut prev_value = v;
    let mut prev_timestamp = t;
    let mut sum = 0.0;
    // A zip here took 1.2 times as long.
    for i in 0..values.len().min(timestamps.len()) {
        let ts = timestamps[i];
        sum = sum + prev_value * seconds_between(prev_timestamp, ts);
        prev_timestamp = ts;
        prev_value = value_at(values, i);
    }
    sum + prev_value * seconds_between(prev_timestamp, end)
}

pub fn rollup_integrate(ranged: &RangedWindow) -> f64
    ensures { result ≡ integrate_of ranged.now.rfa (floats ranged.now.values.now) ranged.now.timestamps.now }
{
    let RangedWindow {
        rfa,
        values,
        timestamps,
    } = *ranged;
    if ieee::is_nan(rfa.prev_value) {
        if values.len() == 0 {
            return nan();
        }
        return area(
            first(values),
            first_or(timestamps, 0),
            rest(values),
            rest(timestamps),
            rfa.curr_timestamp,
        );
    }
    area(
        rfa.prev_value,
        rfa.curr_timestamp - rfa.window,
        values,
        timestamps,
        rfa.curr_timestamp,
    )
}

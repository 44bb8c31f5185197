// The rollups of delta.rs: how much a series grew.

ghost use Rattle.std.specs.Prelude.{◌≡◌};
ghost use Rattle.ieee.specs.Patterns.{floats};
ghost use Rattle.change_rollups.specs.Delta.{delta_from, delta_of, delta_prometheus_of, first_step, idelta_of, starts_low};

use ieee::nan;
use window::types::{RollupFuncArg, first, last, rest, value_at};

// The last value less prev_value, 0.0 where there is no value.
fn delta_from(prev_value: f64, values: &[u64]) -> f64
    ensures { result ≡ delta_from prev_value (floats values.now) }
{
    if values.len() == 0 {
        return 0.0;
    }
    last(values) - prev_value
}

// The step from the first value to the second, or to the one after the window.
fn first_step(real_next_value: f64, values: &[u64]) -> f64
    ensures { result ≡ first_step real_next_value (floats values.now) }
{
    if values.len() > 1 {
        return value_at(values, 1) - first(values);
    }
    if ieee::is_nan(real_next_value) {
        return 0.0;
    }
    real_next_value - first(values)
}

// Whether a counter that starts in the window is taken to have started at 0.0.
fn starts_low(real_next_value: f64, values: &[u64]) -> bool
    ensures { result ≡ starts_low real_next_value (floats values.now) }
{
    let d = first_step(real_next_value, values);
    let limit = 10.0 * (ieee::abs(d) + 1.0);
    ieee::abs(first(values)) < limit
}

pub fn rollup_delta(rfa: RollupFuncArg, values: &[u64]) -> f64
    ensures { result ≡ delta_of rfa (floats values.now) }
{
    if ieee::is_nan(rfa.prev_value) {
        if values.len() == 0 {
            return nan();
        }
        if ieee::is_nan(rfa.real_prev_value) {
            if starts_low(rfa.real_next_value, values) {
                return delta_from(0.0, values);
            }
            return delta_from(first(values), rest(values));
        }
        return last(values) - rfa.real_prev_value;
    }
    delta_from(rfa.prev_value, values)
}

// The last value less the first.
pub fn rollup_delta_prometheus(rfa: RollupFuncArg, values: &[u64]) -> f64
    ensures { result ≡ delta_prometheus_of (floats values.now) }
{
    if values.len() < 2 {
        return nan();
    }
    last(values) - first(values)
}

// The last step.
pub fn rollup_idelta(rfa: RollupFuncArg, values: &[u64]) -> f64
    ensures { result ≡ idelta_of rfa.prev_value (floats values.now) }
{
    if values.len() == 0 {
        if ieee::is_nan(rfa.prev_value) {
            return nan();
        }
        return 0.0;
    }
    if values.len() == 1 {
        if ieee::is_nan(rfa.prev_value) {
            return last(values);
        }
        return last(values) - rfa.prev_value;
    }
    last(values) - value_at(values, values.len() - 2)
}

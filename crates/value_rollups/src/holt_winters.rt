// The rollup of holt_winters.rs: double exponential smoothing.

ghost use Rattle.std.specs.Prelude.{◌≡◌};
ghost use Rattle.ieee.specs.Patterns.{floats};
ghost use Rattle.value_rollups.specs.HoltWinters.{holt_winters_of, out_of_range, smooth_from};

use ieee::nan;
use window::types::{RollupFuncArg, first, rest};

// Whether a factor lies at or below 0.0, or at or above 1.0.
fn out_of_range(x: f64) -> bool
    ensures { result ≡ out_of_range x }
{
    if x <= 0.0 {
        return true;
    }
    x >= 1.0
}

// The level after the values, from s on.
fn smooth_from(sf: f64, tf: f64, s: f64, values: &[u64]) -> f64
    ensures { result ≡ smooth_from sf tf s (floats values.now) }
{
    if values.len() == 0 {
        return nan();
    }
    let start = (s, first(values) - s);
    let (level, _) = values.iter().fold(start, |(s0, b0), b| {
        let s1 = sf * ieee::value_of(*b) + (1.0 - sf) * (s0 + b0);
        (s1, tf * (s1 - s0) + (1.0 - tf) * b0)
    });
    level
}

// The predecessor for an empty window; NaN for factors out of range, and for one reading without predecessor.
pub fn holt_winters_internal(rfa: RollupFuncArg, values: &[u64], sf: f64, tf: f64) -> f64
    ensures { result ≡ holt_winters_of sf tf rfa.prev_value (floats values.now) }
{
    if values.len() == 0 {
        return rfa.prev_value;
    }
    if out_of_range(sf) {
        return nan();
    }
    if out_of_range(tf) {
        return nan();
    }
    if ieee::is_nan(rfa.prev_value) {
        return smooth_from(sf, tf, first(values), rest(values));
    }
    smooth_from(sf, tf, rfa.prev_value, values)
}

// The rollups of candlestick.rs: the first, last, greatest and least value of a window whose last reading
// below the output time is left out, with those after it.

ghost use Rattle.std.specs.Prelude.{◌≡◌};
ghost use Rattle.ieee.specs.Patterns.{floats};
ghost use Rattle.time_rollups.specs.Candlestick.{candlestick, close_of, extreme_candle, first_candle, high_of, low_of, open_of};

use crate::ranged::RangedWindow;
use ieee::nan;
use value_rollups::rollup_fns::extreme;
use window::types::{RollupFuncArg, after_seed, count_up_to, is_before, last, prefix, seed};

// The values before the last reading whose time is below the output time. Not of a `RangedWindow`: it asks for no range.
#[tactic(auto, unfolding(crate::specs::Candlestick::candlestick))]
pub fn get_candlestick_values<'a, 'b>(
    rfa: RollupFuncArg,
    values: &'a [u64],
    timestamps: &'b [i64],
) -> &'a [u64]
    ensures { result.now ≡ candlestick rfa.curr_timestamp timestamps.now values.now }
{
    let n = count_up_to(timestamps, rfa.curr_timestamp).saturating_sub(1);
    prefix(values, n.min(values.len()))
}

// The predecessor, NaN where it lies more than a window's length before the output time.
#[tactic(auto, unfolding(crate::specs::Candlestick::first_candle))]
fn get_first_value_for_candlestick(ranged: &RangedWindow) -> f64
    ensures { result ≡ first_candle ranged.now.rfa }
{
    let RangedWindow { rfa, .. } = *ranged;
    if is_before(rfa.prev_timestamp + rfa.window, rfa.curr_timestamp) {
        return nan();
    }
    rfa.prev_value
}

pub fn rollup_open(ranged: &RangedWindow) -> f64
    ensures { result ≡ open_of ranged.now.rfa (floats ranged.now.values.now) ranged.now.timestamps.now }
{
    let RangedWindow {
        rfa,
        values,
        timestamps,
    } = *ranged;
    let v = get_first_value_for_candlestick(ranged);
    seed(v, get_candlestick_values(rfa, values, timestamps))
}

pub fn rollup_close(ranged: &RangedWindow) -> f64
    ensures { result ≡ close_of ranged.now.rfa (floats ranged.now.values.now) ranged.now.timestamps.now }
{
    let RangedWindow {
        rfa,
        values,
        timestamps,
    } = *ranged;
    let candles = get_candlestick_values(rfa, values, timestamps);
    if candles.len() == 0 {
        return get_first_value_for_candlestick(ranged);
    }
    last(candles)
}

// The furthest value up or down.
fn extreme_candle(down: bool, ranged: &RangedWindow) -> f64
    ensures { result ≡ extreme_candle down ranged.now.rfa (floats ranged.now.values.now) ranged.now.timestamps.now }
{
    let RangedWindow {
        rfa,
        values,
        timestamps,
    } = *ranged;
    let v = get_first_value_for_candlestick(ranged);
    let candles = get_candlestick_values(rfa, values, timestamps);
    extreme(down, seed(v, candles), after_seed(v, candles))
}

pub fn rollup_high(ranged: &RangedWindow) -> f64
    ensures { result ≡ high_of ranged.now.rfa (floats ranged.now.values.now) ranged.now.timestamps.now }
{
    extreme_candle(false, ranged)
}

pub fn rollup_low(ranged: &RangedWindow) -> f64
    ensures { result ≡ low_of ranged.now.rfa (floats ranged.now.values.now) ranged.now.timestamps.now }
{
    extreme_candle(true, ranged)
}

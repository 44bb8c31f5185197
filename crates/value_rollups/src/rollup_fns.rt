// The rollups of rollup_fns.rs that answer from a window's values. Each answers NaN for a window that does not settle it.
// The record and the values come apart, as in the Rust: no rollup here needs anything of the two together, as those of a `RangedWindow` do
// (docs/DECISIONS.md, "Every rollup takes the window record").

ghost use mathlib.Core.List.{foldl};
ghost use Rattle.std.specs.Prelude.{◌≡◌, ◌*◌, ◌≤◌, ◌<◌, length};
ghost use Rattle.math.specs.Deviation.{stddev_of, stdvar_of};
ghost use Rattle.math.specs.Mode.{mode_of};
ghost use Rattle.quantile.specs.Quantile.{mad_of, median_of};
ghost use Rattle.ieee.specs.Patterns.{floats};
ghost use Rattle.window.specs.Window.{beyond, first_of, further, last_of};
ghost use Rattle.value_rollups.specs.RollupFns.{absent_of, avg_of, count_of, distinct_from, distinct_of, max_of, min_of, present_of, range_of, rate_over_sum_of, stale_samples_of, sum2_of, sum_of, total_of};

use ieee::nan;
use window::types::{RollupFuncArg, first, last, rest};

// The values added up from +0.0.
fn total(values: &[u64]) -> f64
    ensures { result ≡ total_of (floats values.now) }
{
    values.iter().fold(0.0, |sum, b| sum + ieee::value_of(*b))
}

pub fn rollup_avg(rfa: RollupFuncArg, values: &[u64]) -> f64
    ensures { result ≡ avg_of (floats values.now) }
{
    if values.len() == 0 {
        return nan();
    }
    total(values) / ieee::of_count(values.len())
}

// Whether v lies beyond m: below it where the way is down, else above it.
// `down` is an argument: the checker does not take a const parameter in the closure of a fold, and a trait for the way, as `Reading` of
// change_rollups, would be a trait and two impls for the one comparison here.
pub fn is_beyond(down: bool, m: f64, v: f64) -> bool
    ensures { result ≡ beyond down m v }
{
    if down { v < m } else { m < v }
}

// m, or v where it lies beyond m.
fn further(down: bool, m: f64, v: f64) -> f64
    ensures { result ≡ further down m v }
{
    if is_beyond(down, m, v) { v } else { m }
}

// The furthest value that way, from m on: replaced only by one that lies beyond it.
pub fn extreme(down: bool, m: f64, values: &[u64]) -> f64
    ensures { result ≡ foldl (further down) m (floats values.now) }
{
    values.iter().fold(m, |furthest, b| {
        further(down, furthest, ieee::value_of(*b))
    })
}

// The least value, the first of equals.
pub fn rollup_min(rfa: RollupFuncArg, values: &[u64]) -> f64
    ensures { result ≡ min_of (floats values.now) }
{
    if values.len() == 0 {
        return nan();
    }
    extreme(true, first(values), values)
}

// The greatest value, the last of equals.
pub fn rollup_max(rfa: RollupFuncArg, values: &[u64]) -> f64
    ensures { result ≡ max_of (floats values.now) }
{
    match values.split_first() {
        Some((first, rest)) => rest.iter().fold(ieee::value_of(*first), |max_value, b| {
            order::greater(max_value, ieee::value_of(*b))
        }),
        None => nan(),
    }
}

// The median absolute deviation.
pub fn rollup_mad(rfa: RollupFuncArg, values: &[u64], work: &mut [f64]) -> f64
    requires { 2 * length values.now ≤ length work.old }
    ensures { result ≡ mad_of (floats values.now) }
{
    quantile::mad(values, work)
}

pub fn rollup_median(rfa: RollupFuncArg, values: &[u64], work: &mut [f64]) -> f64
    requires { 2 * length values.now ≤ length work.old }
    ensures { result ≡ median_of (floats values.now) }
{
    quantile::median(values, work)
}

pub fn rollup_sum(rfa: RollupFuncArg, values: &[u64]) -> f64
    ensures { result ≡ sum_of (floats values.now) }
{
    if values.len() == 0 {
        return nan();
    }
    total(values)
}

// The sum by the window's length in seconds.
pub fn rollup_rate_over_sum(rfa: RollupFuncArg, values: &[u64]) -> f64
    ensures { result ≡ rate_over_sum_of rfa (floats values.now) }
{
    if values.len() == 0 {
        return nan();
    }
    total(values) / ieee::seconds(rfa.window)
}

pub fn rollup_sum2(rfa: RollupFuncArg, values: &[u64]) -> f64
    ensures { result ≡ sum2_of (floats values.now) }
{
    if values.len() == 0 {
        return nan();
    }
    values.iter().fold(0.0, |squares, b| {
        let v = ieee::value_of(*b);
        squares + v * v
    })
}

// The greatest value less the least.
pub fn rollup_range(rfa: RollupFuncArg, values: &[u64]) -> f64
    ensures { result ≡ range_of (floats values.now) }
{
    if values.len() == 0 {
        return nan();
    }
    let start = first(values);
    let (max, min) = values.iter().fold((start, start), |(max, min), b| {
        let v = ieee::value_of(*b);
        (further(false, max, v), further(true, min, v))
    });
    max - min
}

// 1.0 for an empty window.
pub fn rollup_absent(rfa: RollupFuncArg, values: &[u64]) -> f64
    ensures { result ≡ absent_of (floats values.now) }
{
    if values.len() == 0 {
        return 1.0;
    }
    nan()
}

// 1.0 for a window that is not empty.
pub fn rollup_present(rfa: RollupFuncArg, values: &[u64]) -> f64
    ensures { result ≡ present_of (floats values.now) }
{
    if values.len() == 0 {
        return nan();
    }
    1.0
}

pub fn rollup_count(rfa: RollupFuncArg, values: &[u64]) -> f64
    ensures { result ≡ count_of (floats values.now) }
{
    if values.len() == 0 {
        return nan();
    }
    ieee::of_count(values.len())
}

// How many values are staleness marks.
pub fn rollup_stale_samples(rfa: RollupFuncArg, values: &[u64]) -> f64
    ensures { result ≡ stale_samples_of values.now }
{
    if values.len() == 0 {
        return nan();
    }
    let mut marks = 0;
    for i in 0..values.len() {
        if ieee::is_stale_nan(values[i]) {
            marks += 1;
        }
    }
    ieee::of_count(marks)
}

pub fn rollup_stddev(rfa: RollupFuncArg, values: &[u64]) -> f64
    ensures { result ≡ stddev_of (floats values.now) }
{
    math::deviation::stddev(values)
}

pub fn rollup_stdvar(rfa: RollupFuncArg, values: &[u64]) -> f64
    ensures { result ≡ stdvar_of (floats values.now) }
{
    math::deviation::stdvar(values)
}

// The most frequent value, the predecessor standing for one.
pub fn rollup_mode_over_time(rfa: RollupFuncArg, values: &[u64], work: &mut [f64]) -> f64
    requires { 2 * length values.now ≤ length work.old }
    ensures { result ≡ mode_of rfa.prev_value (floats values.now) }
{
    math::mode::mode_no_nans(rfa.prev_value, values, work)
}

// The first value.
pub fn rollup_first(rfa: RollupFuncArg, values: &[u64]) -> f64
    ensures { result ≡ first_of (floats values.now) }
{
    first(values)
}

// The last value.
pub fn rollup_default(rfa: RollupFuncArg, values: &[u64]) -> f64
    ensures { result ≡ last_of (floats values.now) }
{
    last(values)
}

// How many values `dedup` keeps.
fn count_distinct(sorted: &[f64]) -> usize
    requires { 0 < length sorted.now }
    ensures { result ≡ distinct_from sorted.now }
{
    let mut kept = sorted[0];
    let mut n = 1;
    for v in rest(sorted) {
        if *v != kept {
            n += 1;
            kept = *v;
        }
    }
    n
}

// How many different values the window has.
pub fn rollup_distinct(rfa: RollupFuncArg, values: &[u64], work: &mut [f64]) -> f64
    requires { 2 * length values.now ≤ length work.old }
    ensures { result ≡ distinct_of (floats values.now) }
{
    if values.len() == 0 {
        return nan();
    }
    sort::sort_values(values, work);
    ieee::of_count(count_distinct(&work[..values.len()]))
}

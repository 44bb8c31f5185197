// The window record at an output time, from the indexes that the searches found: i readings stand at or before the
// window's start, and j at or before the output time.
#![tactic(auto)]

ghost use Rattle.std.specs.Prelude.{◌≡◌, length, slice_get};
ghost use Rattle.std.proofs.Math.Option.{get_or};
ghost use Rattle.std.specs.Int.Signed.{lt_z};
ghost use Rattle.times.specs.Later.{NotFalling};
ghost use Rattle.record.specs.Index.{Found, value_at, value_before, value_if, predecessor_at};
ghost use Rattle.settings.specs.Course.{Timed};
ghost use Rattle.record.specs.Record.{readings, record_at};

use settings::course::Course;
use window::types::RollupFuncArg;

// The value at k, and NaN where there is none.
fn value_at(values: &[u64], k: usize) -> f64
    ensures { result ≡ value_at values.now k }
{
    match values.get(k) {
        Some(b) => ieee::value_of(*b),
        None => ieee::nan(),
    }
}

// The value before k, and NaN where there is none. `checked_sub` with a match would be this test again.
fn value_before(values: &[u64], k: usize) -> f64
    ensures { result ≡ value_before values.now k }
{
    if k > 0 {
        value_at(values, k - 1)
    } else {
        ieee::nan()
    }
}

// The time before i where it is above the limit and a reading stands at i, and the limit otherwise.
fn predecessor_time(timestamps: &[i64], i: usize, limit: i64) -> i64
    ensures { result ≡ get_or (predecessor_at timestamps.now i limit) limit }
{
    if i == 0 || timestamps.len() <= i {
        return limit;
    }
    timestamps[i - 1].max(limit)
}

// A value where its time is above the limit, and NaN otherwise.
fn value_if(time: i64, limit: i64, x: f64) -> f64
    ensures { result ≡ value_if (lt_z limit time) x }
{
    if time > limit { x } else { ieee::nan() }
}

// The time at k, where there is one.
fn time_at(timestamps: &[i64], k: usize) -> Option<i64>
    ensures { result ≡ slice_get timestamps.now k }
{
    timestamps.get(k).copied()
}

// The record at t_end, for the course's window and reach. Times and values come apart: the values are those of a step, and stand in another
// slice than the series'.
pub fn record_at(
    timestamps: &[i64],
    values: &[u64],
    i: usize,
    j: usize,
    t_end: i64,
    course: Course,
) -> RollupFuncArg
    requires ordered { (length timestamps.now ≡ length values.now) × NotFalling timestamps.now }
    requires found { Found timestamps.now course.window t_end i j }
    requires timed { Timed t_end course }
    ensures { result ≡ (record_at (readings timestamps.now values.now) course.window course.reach t_end).arg }
{
    let window = course.window;
    let t_start = t_end - window;
    let limit = t_start - course.reach;
    let prev_timestamp = predecessor_time(timestamps, i, limit);
    let real_prev_value = value_before(values, i);
    RollupFuncArg {
        prev_value: value_if(prev_timestamp, limit, real_prev_value),
        prev_timestamp,
        real_prev_value,
        real_next_value: value_at(values, j),
        next_timestamp: time_at(timestamps, j),
        curr_timestamp: t_end,
        window,
    }
}

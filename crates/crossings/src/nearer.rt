// The reading nearest to a time, by a search among times that do not fall.

ghost use Rattle.std.specs.Prelude.{true, ◌≡◌, ◌<◌, ltb, length};
ghost use Rattle.std.specs.Int.Signed.{le_z};
ghost use Rattle.times.specs.Leading.{leading};
ghost use Rattle.times.specs.Milli.{time_limit, Within};
ghost use Rattle.series.specs.Answers.{reply};
ghost use Rattle.series.specs.Rows.{time_inside};
ghost use Rattle.crossings.specs.Nearest.{asked_checked, distance, nearest_index, nearest_of};

use series::Refusal;
use times::search::Times;

// Rows 2 to 4, and between 3 and 4 that of the asked time.
fn check_asked(timestamps: &[i64], time: i64) -> Result<(), Refusal>
    ensures { result ≡ asked_checked timestamps.now time }
{
    if series::is_inside(time) {
        return series::check_times(timestamps);
    }
    series::check_inside(timestamps)?;
    Err(Refusal::TimeOutside(0))
}

// Whether the later of two times around the asked one is nearer to it. They are plain numbers: a type of times within the limit would be made
// of each for this one test.
fn is_later_nearer(time: i64, earlier: i64, later: i64) -> bool
    requires { (Within time_limit time) × (Within time_limit earlier) × (Within time_limit later) × (le_z earlier time ≡ true) × (le_z time later ≡ true) }
    ensures { result ≡ ltb (distance time later) (distance time earlier) }
{
    later - time < time - earlier
}

// The index of the time nearest to the asked one: the last that is not after it, by the first index that has it, or the next one where
// that is nearer.
fn seek_nearest(times: &Times, time: i64) -> usize
    requires { (leading time_inside times.now.slice.now ≡ length times.now.slice.now) × (Within time_limit time) × (0 < length times.now.slice.now) }
    ensures { result ≡ nearest_index time times.now.slice.now }
{
    let timestamps = times.slice;
    let after = times.seek_first_timestamp_idx_after(time, 0);
    if after == 0 {
        return 0;
    }
    let before = timestamps[after - 1];
    if after < timestamps.len() {
        if is_later_nearer(time, before, timestamps[after]) {
            return after;
        }
    }
    times.seek_first_timestamp_idx_after(before - 1, after)
}

// The index of the reading with the least distance from a time, the lowest of a tie, and none where there is no reading; or the refusal
// by row 2, 3 of the readings, 3 of the asked time, or 4.
pub fn nearest(timestamps: &[i64], time: i64) -> Result<Option<usize>, Refusal>
    ensures { reply result ≡ nearest_of timestamps.now time }
{
    check_asked(timestamps, time)?;
    if timestamps.is_empty() {
        return Ok(None);
    }
    let times = Times { slice: timestamps };
    Ok(Some(seek_nearest(&times, time)))
}

// The interval between readings, estimated from the first 20.

ghost use Rattle.std.specs.Prelude.{◌≡◌, ◌+◌, ◌≤◌, ◌<◌, pos, length, get_or, take};
ghost use Rattle.std.specs.Float.{binary64};
ghost use Rattle.std.specs.Float.Ieee.{of_int};
ghost use Rattle.config.specs.Estimate.{distances, first_intervals, estimate_of};

use series::AcceptedTimes;

const MAX_SILENCE_INTERVAL: u64 = 300_000;

// The distance from the time at i to the next.
fn interval(times: &AcceptedTimes, i: usize) -> f64
    requires { i + 1 < length times.now.slice.now }
    ensures { result ≡ of_int binary64 (get_or (distances times.now.slice.now) i (pos 0)) }
{
    let timestamps = times.slice;
    ieee::of_difference(timestamps[i + 1] - timestamps[i])
}

// Writes the first 20 intervals to the front of work, and returns how many there are.
fn first_intervals(times: &AcceptedTimes, work: &mut [f64]) -> usize
    requires { 20 ≤ length work.old }
    ensures count { result ≡ length (first_intervals times.now.slice.now) }
    ensures front { take result work.new ≡ first_intervals times.now.slice.now }
{
    // The index is that of an interval and of its place, and an interval reads two times.
    let n = times.slice.len().saturating_sub(1).min(20);
    for i in 0..n {
        work[i] = interval(times, i);
    }
    n
}

// Quantile 0.6 of the first 20 intervals, or five minutes where there is none or it is not above 0.
pub fn get_scrape_interval(times: &AcceptedTimes) -> u64
    ensures { result ≡ estimate_of times.now.slice.now }
{
    let timestamps = times.slice;
    if timestamps.len() < 2 {
        return MAX_SILENCE_INTERVAL;
    }
    // The library allocates nothing: room for 20 intervals, and for the copies of them that the sort wants.
    let mut work = [0.0f64; 40];
    let n = first_intervals(times, &mut work);
    let scrape_interval = ieee::to_i64(quantile::quantile_first(0.6, n, &mut work));
    if scrape_interval <= 0 {
        return MAX_SILENCE_INTERVAL;
    }
    scrape_interval as u64
}

// Replays the list `search`: the hinted search, the estimate, the reach of an estimate, the grid and the
// per-call table. A case's first word says which, and the last ones are the Rust's answer. What the table of
// refusals refuses counts as a difference.
#![tactic(auto)]

ghost use Rattle.std.specs.Prelude.{ℕ, ◌≤◌, ◌<◌};
ghost use Rattle.times.specs.Grid.{OnGrid};

use series::{AcceptedTimes, Refusal};
use settings::RollupConfig;
use std::io;
use times::search::Times;
use vectors::{Cursor, Unread};

// How many times of a grid the list holds; of more it holds the first and the last.
const WHOLE: u64 = 64;

// What a case asks.
#[derive(Clone, Copy, Debug, PartialEq, Eq)]
enum Question {
    Search,
    Estimate,
    Reach,
    Grid,
    PerCall,
}

impl TryFrom<u64> for Question {
    type Error = Unread;

    fn try_from(number: u64) -> Result<Self, Unread> {
        match number {
            0 => Ok(Question::Search),
            1 => Ok(Question::Estimate),
            2 => Ok(Question::Reach),
            3 => Ok(Question::Grid),
            4 => Ok(Question::PerCall),
            _ => Err(Unread::Malformed),
        }
    }
}

// The index that the search gives, of times that the table accepts.
fn index_after(timestamps: &[i64], t: i64, hint: usize) -> Result<usize, Refusal> {
    series::check_times(timestamps)?;
    let times = Times { slice: timestamps };
    Ok(times.seek_first_timestamp_idx_after(t, hint))
}

// A search: the number of times, the times, the time and the hint; then the index.
fn search(words: &mut Cursor) -> Result<bool, Unread> {
    let n = words.count()?;
    let timestamps = words.times(n)?;
    let t = words.number()?;
    let hint = words.word()? as usize;
    let stored = words.word()? as usize;
    Ok(index_after(&timestamps, t, hint) == Ok(stored))
}

// The estimate, of times that the table accepts.
fn interval(timestamps: &[i64]) -> Result<u64, Refusal> {
    series::check_times(timestamps)?;
    let times = AcceptedTimes { slice: timestamps };
    Ok(config::estimate::get_scrape_interval(&times))
}

// An estimate: the number of times and the times; then the interval.
fn estimate(words: &mut Cursor) -> Result<bool, Unread> {
    let n = words.count()?;
    let timestamps = words.times(n)?;
    let stored = words.word()?;
    Ok(interval(&timestamps) == Ok(stored))
}

// An estimate and its reach.
fn reach(words: &mut Cursor) -> Result<bool, Unread> {
    let interval = words.word()?;
    if interval >= 0x8000_0000_0000_0000 {
        return Err(Unread::Malformed);
    }
    Ok(config::reach::get_max_prev_interval(interval) == words.word()?)
}

// Whether the first n times of a grid are those that are listed.
fn same_times(listed: &[i64], start: i64, step: i64, n: u64) -> bool
    requires few { n ≤ 64 }
    requires on_grid { ((k : ℕ) → k < n → OnGrid start step k) }
{
    (0..n).all(|k| listed.get(k as usize) == Some(&times::grid::time_at(start, step, k)))
}

// Whether the first and the last of a grid's n times are those that are listed.
fn same_ends(listed: &[i64], start: i64, step: i64, n: u64) -> bool
    requires any { 0 < n }
    requires on_grid { ((k : ℕ) → k < n → OnGrid start step k) }
{
    listed.first() == Some(&times::grid::time_at(start, step, 0))
        && listed.last() == Some(&times::grid::time_at(start, step, n - 1))
}

// Whether a grid that the table accepts has the stored number of times, and the times that are listed.
fn same_grid(listed: &[i64], rc: RollupConfig, stored: u64) -> Result<bool, Refusal> {
    settings::check_settings(rc)?;
    let n = times::grid::points(rc.start, rc.end, rc.step);
    if n != stored {
        return Ok(false);
    }
    if n <= WHOLE {
        return Ok(same_times(listed, rc.start, rc.step, n));
    }
    Ok(same_ends(listed, rc.start, rc.step, n))
}

// How many times of a grid of n times the list holds.
fn held(n: u64) -> usize
    ensures { result ≤ 64 }
{
    if n <= WHOLE { n as usize } else { 2 }
}

// A start, an end and a step; then the number of output times and, of 64 at most, all of them, of more the
// first and the last.
fn grid(words: &mut Cursor) -> Result<bool, Unread> {
    let rc = RollupConfig {
        start: words.number()?,
        end: words.number()?,
        step: words.number()?,
        window: 0,
        may_adjust_window: false,
        is_default_rollup: false,
        lookback_delta: 0,
        min_staleness_interval: 0,
        max_points_per_series: 0,
        samples_scanned_per_call: 0,
    };
    let stored = words.word()?;
    let listed = words.times(held(stored))?;
    Ok(same_grid(&listed, rc, stored) == Ok(true))
}

// A rollup's number and its per-call number.
fn per_call(words: &mut Cursor) -> Result<bool, Unread> {
    let number = words.word()?;
    if number >= 48 {
        return Err(Unread::Malformed);
    }
    let stored = words.word()?;
    let scanned = rollup::choice::rollup_of(number as u32, 0.0, 0.0).map(
        rollup::handler::rollup_samples_scanned_per_call,
    );
    Ok(scanned.is_some_and(|scanned| scanned as u64 == stored))
}

// Whether the next case has the stored answer. A match sees that each question has its function.
fn case(words: &mut Cursor) -> Result<bool, Unread> {
    match Question::try_from(words.word()?)? {
        Question::Search => search(words),
        Question::Estimate => estimate(words),
        Question::Reach => reach(words),
        Question::Grid => grid(words),
        Question::PerCall => per_call(words),
    }
}

fn main(rt: HostRuntime) -> io::Result<()> {
    replay::replay(&rt, case)?;
    Ok(())
}

// Replays the list `regression`. A case's words are the function's number, the number of readings, their
// values, the intercept time, their times, and the Rust's value at the intercept and slope.
#![tactic(auto)]

use series::Refusal;
use std::io;
use vectors::{Cursor, Unread};

// How far from 0 an intercept time may lie: 2^51.
const RANGE: u64 = 0x8_0000_0000_0000;

// Whether the line through readings that the table accepts is the stored one. An intercept out of range counts
// as a difference.
fn same(
    values: &[u64],
    timestamps: &[i64],
    intercept: i64,
    v: u64,
    k: u64,
) -> Result<bool, Refusal> {
    series::check_times(timestamps)?;
    if RANGE < intercept.unsigned_abs() {
        return Ok(false);
    }
    let line = regression::linear_regression(values, timestamps, intercept);
    Ok(ieee::bits_of(line.v) == v && ieee::bits_of(line.k) == k)
}

// Whether the next case has the stored answer.
fn case(words: &mut Cursor) -> Result<bool, Unread> {
    let _function = words.word()?;
    let n = words.count()?;
    let values = words.words(n)?;
    let intercept = words.number()?;
    let timestamps = words.times(n)?;
    let [v, k] = words.array::<2>()?;
    Ok(same(&values, &timestamps, intercept, v, k) == Ok(true))
}

fn main(rt: HostRuntime) -> io::Result<()> {
    replay::replay(&rt, case)?;
    Ok(())
}

// Replays the list `prepare`. A case's words are the preparing step, the number of readings, their times,
// their values, and the values as the Rust prepared them, or the model where the Rust does not have the step.
#![tactic(auto)]

use series::Series;
use std::io;
use vectors::{Cursor, Unread};

// Whether the next case has the stored answer.
fn case(words: &mut Cursor) -> Result<bool, Unread> {
    // Of `and_then(steps::step_of)` the check finds no contract, since the module that `step_of` stands in is private.
    let pre = u32::try_from(words.word()?)
        .ok()
        .and_then(|number| steps::step_of(number))
        .ok_or(Unread::Malformed)?;
    let n = words.count()?;
    let timestamps = words.times(n)?;
    let values = words.words(n)?;
    let stored = words.words(n)?;
    let mut prepared = vectors::others(&stored, words.alloc)?;
    let series = Series {
        timestamps: &timestamps,
        values: &values,
    };
    let answer = prepare::prepare(&series, pre, &mut prepared);
    Ok(answer.is_ok() && prepared == stored)
}

fn main(rt: HostRuntime) -> io::Result<()> {
    replay::replay(&rt, case)?;
    Ok(())
}

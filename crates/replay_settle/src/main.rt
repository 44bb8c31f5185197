// Replays the list `settle`. A case's words are the number of times, the times, ten settings, and the
// Rust's window, reach and number of output times.
#![tactic(auto)]

use std::io;
use vectors::{Cursor, Unread};

// Whether the next case has the stored answer.
fn case(words: &mut Cursor) -> Result<bool, Unread> {
    let n = words.count()?;
    let timestamps = words.times(n)?;
    let rc = replay_settings::settings(words)?;
    let stored = replay_settings::settlement(words)?;
    let answer = config::settle::settle(&timestamps, rc);
    Ok(replay_settings::same(stored, answer))
}

fn main(rt: HostRuntime) -> io::Result<()> {
    replay::replay(&rt, case)?;
    Ok(())
}

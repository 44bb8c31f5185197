// What the programs that replay the lists `settle` and `run` share: the words of a case that are settings, and
// those that are what they settle to.
#![tactic(auto)]

ghost use Rattle.std.specs.Prelude.{IfOk, OnOk, OnErr, Ok, true, length, ◌≡◌, ◌+◌, ◌*◌, ◌<◌};
ghost use Rattle.replay_settings.specs.Stored.{StoredSettings, StoredSettlement};

use config::settle::Settlement;
use series::Refusal;
use settings::RollupConfig;
use vectors::{Cursor, Unread};

// The words that settings have.
const SETTINGS: usize = 10;

// The words of what settings settle to.
const SETTLEMENT: usize = 3;

// The settings that the ten words from a byte on are.
pub fn settings_at(text: &[u8], at: usize) -> RollupConfig
    ensures { StoredSettings text.now at result }
{
    let [
        start,
        end,
        step,
        window,
        adjusting,
        default,
        lookback,
        staleness,
        limit,
    ] = vectors::numbers_at::<9>(text, at);
    RollupConfig {
        start,
        end,
        step,
        window,
        may_adjust_window: adjusting == 1,
        is_default_rollup: default == 1,
        lookback_delta: lookback,
        min_staleness_interval: staleness,
        max_points_per_series: limit,
        samples_scanned_per_call: vectors::nth_word(text, at, 9),
    }
}

// The settings that the next ten words are.
// `settlement` takes its words in the same way. One function for both would be handed the number of words and a closure, and
// would say its four clauses of what the closure gives.
pub fn settings(words: &mut Cursor) -> Result<RollupConfig, Unread>
    ensures kept { words.new.text.now ≡ words.old.text.now }
    ensures words { IfOk result (StoredSettings words.old.text.now words.old.at) }
    ensures moved { OnOk result (words.new.at ≡ words.old.at + 17 * 10) }
    ensures end { OnErr result (length words.old.text.now < words.old.at + 17 * 10) }
{
    let at = words.pass(SETTINGS)?;
    Ok(settings_at(words.text, at))
}

// The window, the reach and the number of output times that the three words from a byte on are.
pub fn settlement_at(text: &[u8], at: usize) -> Settlement
    ensures { StoredSettlement text.now at result }
{
    let [window, reach] = vectors::numbers_at::<2>(text, at);
    Settlement {
        window,
        reach,
        points: vectors::nth_word(text, at, 2),
    }
}

// The window, the reach and the number of output times that the next three words are.
pub fn settlement(words: &mut Cursor) -> Result<Settlement, Unread>
    ensures kept { words.new.text.now ≡ words.old.text.now }
    ensures words { IfOk result (StoredSettlement words.old.text.now words.old.at) }
    ensures moved { OnOk result (words.new.at ≡ words.old.at + 17 * 3) }
    ensures end { OnErr result (length words.old.text.now < words.old.at + 17 * 3) }
{
    let at = words.pass(SETTLEMENT)?;
    Ok(settlement_at(words.text, at))
}

// Whether an answer is the one that is stored.
pub fn same(stored: Settlement, answer: Result<Settlement, Refusal>) -> bool
    ensures { result ≡ true → answer ≡ Ok stored }
{
    answer == Ok(stored)
}

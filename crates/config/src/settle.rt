// Settling: from times and settings to a window, a reach and the number of output times.

ghost use Rattle.std.specs.Prelude.{Ok, ◌≡◌};
ghost use Rattle.series.specs.Answers.{reply, reply_of};
ghost use Rattle.settings.specs.Rows.{settings_checked};
ghost use Rattle.config.specs.Settle.{settlement, settle_of};

use super::reach::WindowSettings;
use super::{estimate, reach};
use series::{AcceptedTimes, Refusal};
use settings::RollupConfig;

// The window, the reach and the number of output times.
#[derive(Clone, Copy, Debug, PartialEq, Eq)]
pub struct Settlement {
    pub window: i64,
    pub reach: i64,
    pub points: u64,
}

// What accepted times and settings settle to.
pub fn settle_accepted(times: &AcceptedTimes, rc: RollupConfig) -> Settlement
    requires { settings_checked rc ≡ Ok tt }
    ensures { result ≡ settlement times.now.slice.now rc }
{
    let scrape_interval = estimate::get_scrape_interval(times);
    let max_prev_interval = reach::get_max_prev_interval(scrape_interval);
    let by = WindowSettings {
        window: rc.window as u64,
        step: rc.step as u64,
        may_adjust_window: rc.may_adjust_window,
        is_default_rollup: rc.is_default_rollup,
        lookback_delta: rc.lookback_delta as u64,
        min_staleness_interval: rc.min_staleness_interval as u64,
    };
    let far = by.bounded_reach(max_prev_interval);
    let window = by.adjusted_window(far);
    Settlement {
        window: window as i64,
        reach: far as i64,
        points: times::grid::points(rc.start, rc.end, rc.step),
    }
}

// The window, the reach and the number of output times, or the first of rows 6 to 11 that refuses.
fn settle_settings(times: &AcceptedTimes, rc: RollupConfig) -> Result<Settlement, Refusal>
    ensures { reply result ≡ reply_of (settings_checked rc) (settlement times.now.slice.now rc) }
{
    settings::check_settings(rc)?;
    Ok(settle_accepted(times, rc))
}

// The same, with rows 2 to 4 before.
pub fn settle(timestamps: &[i64], rc: RollupConfig) -> Result<Settlement, Refusal>
    ensures { reply result ≡ settle_of timestamps.now rc }
{
    series::check_times(timestamps)?;
    let times = AcceptedTimes { slice: timestamps };
    settle_settings(&times, rc)
}

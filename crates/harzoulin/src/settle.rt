// `harzoulin_settle`: `config::settle::settle` over numbers.

ghost use Rattle.std.specs.Prelude.{◌≡◌};
ghost use Rattle.harzoulin.specs.Exported.{crossed, exported};
ghost use Rattle.harzoulin.specs.Settle.{config_of, settle_outcome, settled_to};

use crate::refuse;
use settings::RollupConfig;

// The settled window, the reach and the number of output times are set on acceptance only.
pub fn harzoulin_settle(
    timestamps: &[i64],
    start: i64,
    end: i64,
    step: i64,
    window: i64,
    may_adjust_window: bool,
    is_default_rollup: bool,
    lookback_delta: i64,
    min_staleness_interval: i64,
    max_points_per_series: i64,
    samples_scanned_per_call: u64,
    settled_window: &mut i64,
    reach: &mut i64,
    points: &mut u64,
    index: &mut u64,
) -> u64
    ensures { exported result index.new (settled_to settled_window.new reach.new points.new) tt ≡ crossed (settle_outcome timestamps.now (config_of start end step window may_adjust_window is_default_rollup lookback_delta min_staleness_interval max_points_per_series samples_scanned_per_call)) (settled_to settled_window.old reach.old points.old) }
{
    let rc = RollupConfig {
        start,
        end,
        step,
        window,
        may_adjust_window,
        is_default_rollup,
        lookback_delta,
        min_staleness_interval,
        max_points_per_series,
        samples_scanned_per_call,
    };
    match config::settle::settle(timestamps, rc) {
        Err(r) => refuse(r, index),
        Ok(settled) => {
            *settled_window = settled.window;
            *reach = settled.reach;
            *points = settled.points;
            *index = 0;
            0
        }
    }
}

// A call's settings, and rows 6 to 11 of docs/REFUSALS.md, which turn them away.
#![tactic(auto)]

pub mod course;

ghost use Rattle.std.specs.Prelude.{◌≡◌};
ghost use Rattle.times.specs.Grid.{Spans};
ghost use Rattle.settings.specs.Rows.{outside, span_outside, setting_outside, over_point_limit, row11, span_checked, ranges_checked, settings_checked, settled_outside, settled_settings};

use series::Refusal;
use times::TIME_LIMIT;

// Times and lengths of time are milliseconds. As C hands them in, a window of 0 stands for the step, a lookback
// delta or a number of points of 0 for no limit, and a per-call number of 0 for all of a window.
#[derive(Clone, Copy)]
pub struct RollupConfig {
    pub start: i64,
    pub end: i64,
    pub step: i64,
    pub window: i64,
    pub may_adjust_window: bool,
    pub is_default_rollup: bool,
    pub lookback_delta: i64,
    pub min_staleness_interval: i64,
    pub max_points_per_series: i64,
    pub samples_scanned_per_call: u64,
}

// The settings of a settled run, which is given its window and its reach.
#[derive(Clone, Copy)]
pub struct SettledConfig {
    pub start: i64,
    pub end: i64,
    pub step: i64,
    pub window: i64,
    pub reach: i64,
    pub samples_scanned_per_call: u64,
}

const SETTLED_LIMIT: i64 = 0x10_0000_0000_0000;

const MAX_POINTS: u64 = 16_777_216;

const MAX_PER_CALL: u64 = 65_535;

// Whether x is below lo or above hi.
#[tactic(auto, unfolding(crate::specs::Rows::outside))]
fn is_outside(lo: i64, hi: i64, x: i64) -> bool
    ensures { result ≡ outside lo hi x }
{
    !(lo..=hi).contains(&x)
}

// Row 7's condition.
#[tactic(auto, unfolding(crate::specs::Rows::span_outside))]
fn is_span_outside(start: i64, end: i64) -> bool
    ensures { result ≡ span_outside start end }
{
    is_outside(-TIME_LIMIT, TIME_LIMIT, start)
        || is_outside(-TIME_LIMIT, TIME_LIMIT, end)
        || end < start
}

// Row 9's condition.
#[tactic(auto, unfolding(crate::specs::Rows::setting_outside))]
fn is_setting_outside(
    lookback_delta: i64,
    min_staleness_interval: i64,
    max_points: i64,
    per_call: u64,
) -> bool
    ensures { result ≡ setting_outside lookback_delta min_staleness_interval max_points per_call }
{
    is_outside(0, TIME_LIMIT, lookback_delta)
        || is_outside(0, TIME_LIMIT, min_staleness_interval)
        || is_outside(0, TIME_LIMIT, max_points)
        || MAX_PER_CALL < per_call
}

// Row 10's condition. Its callers hold the three of a grid as fields of their settings, so a struct of them would be made at each call.
fn is_over_point_limit(start: i64, end: i64, step: i64, max_points: i64) -> bool
    requires { Spans start end step }
    ensures { result ≡ over_point_limit start end step max_points }
{
    0 < max_points && max_points < (end - start) / (step + 1)
}

// Rows 6 and 7.
fn check_span(start: i64, end: i64, step: i64) -> Result<(), Refusal>
    ensures { result ≡ span_checked start end step }
{
    if is_outside(1, TIME_LIMIT, step) {
        return Err(Refusal::StepOutside);
    }
    if is_span_outside(start, end) {
        return Err(Refusal::SpanOutside);
    }
    Ok(())
}

// Rows 6 to 9.
fn check_ranges(rc: RollupConfig) -> Result<(), Refusal>
    ensures { result ≡ ranges_checked rc }
{
    check_span(rc.start, rc.end, rc.step)?;
    if is_outside(0, TIME_LIMIT, rc.window) {
        return Err(Refusal::WindowOutside);
    }
    if is_setting_outside(
        rc.lookback_delta,
        rc.min_staleness_interval,
        rc.max_points_per_series,
        rc.samples_scanned_per_call,
    ) {
        return Err(Refusal::SettingOutside);
    }
    Ok(())
}

// Row 11.
fn check_points(start: i64, end: i64, step: i64) -> Result<(), Refusal>
    requires { Spans start end step }
    ensures { result ≡ row11 start end step }
{
    if MAX_POINTS < times::grid::points(start, end, step) {
        return Err(Refusal::TooManyPoints);
    }
    Ok(())
}

// Rows 6 to 11.
pub fn check_settings(rc: RollupConfig) -> Result<(), Refusal>
    ensures { result ≡ settings_checked rc }
{
    check_ranges(rc)?;
    if is_over_point_limit(rc.start, rc.end, rc.step, rc.max_points_per_series) {
        return Err(Refusal::OverPointLimit);
    }
    check_points(rc.start, rc.end, rc.step)
}

// Row 8's condition in a settled run.
#[tactic(auto, unfolding(crate::specs::Rows::settled_outside))]
fn is_settled_outside(window: i64, reach: i64) -> bool
    ensures { result ≡ settled_outside window reach }
{
    is_outside(1, SETTLED_LIMIT, window) || is_outside(1, SETTLED_LIMIT, reach)
}

// Rows 6 to 11 of a settled run: its own row 8, of row 9 the per-call number, and no row 10.
pub fn check_settled(sc: SettledConfig) -> Result<(), Refusal>
    ensures { result ≡ settled_settings sc }
{
    check_span(sc.start, sc.end, sc.step)?;
    if is_settled_outside(sc.window, sc.reach) {
        return Err(Refusal::WindowOutside);
    }
    if MAX_PER_CALL < sc.samples_scanned_per_call {
        return Err(Refusal::SettingOutside);
    }
    check_points(sc.start, sc.end, sc.step)
}

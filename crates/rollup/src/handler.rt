// The choice of a rollup, its evaluation, and how many samples it is taken to scan.

ghost use Rattle.std.specs.Prelude.{◌≡◌, ◌*◌, drop, length};
ghost use Rattle.ieee.specs.Patterns.{floats};
ghost use Rattle.rollup.specs.Eval.{Ready, answers_mark, eval_of, figure_of, scanned_per_call, sees_marks};

use change_rollups::delta::{rollup_delta, rollup_delta_prometheus, rollup_idelta};
use change_rollups::rollup_fns::{
    rollup_ascent_over_time, rollup_changes, rollup_changes_prometheus, rollup_descent_over_time,
    rollup_increase_pure, rollup_increases, rollup_resets,
};
use time_rollups::candlestick::{rollup_close, rollup_high, rollup_low, rollup_open};
use time_rollups::deriv::{rollup_deriv_fast, rollup_deriv_slow, rollup_ideriv};
use time_rollups::integrate::rollup_integrate;
use time_rollups::ranged::RangedWindow;
use time_rollups::rollup_fns::{
    rollup_lag, rollup_lifetime, rollup_predict_linear, rollup_scrape_interval, rollup_tfirst,
    rollup_tlast, rollup_tlast_change, rollup_tmax, rollup_tmin, rollup_zscore_over_time,
};
use time_rollups::until_next::rollup_until_next;
use value_rollups::holt_winters::holt_winters_internal;
use value_rollups::quantiles::rollup_quantile;
use value_rollups::rollup_fns::{
    rollup_absent, rollup_avg, rollup_count, rollup_default, rollup_distinct, rollup_first,
    rollup_mad, rollup_max, rollup_median, rollup_min, rollup_mode_over_time, rollup_present,
    rollup_range, rollup_rate_over_sum, rollup_stale_samples, rollup_stddev, rollup_stdvar,
    rollup_sum, rollup_sum2,
};
use window::types::{RollupFuncArg, last_or};

// The rollups, in the order of their numbers (docs/ROLLUPS.md).
#[derive(Clone, Copy)]
pub enum RollupHandler {
    Avg,
    Min,
    Max,
    Mad,
    Median,
    Tmin,
    Tmax,
    Tfirst,
    Tlast,
    TlastChange,
    Sum,
    Sum2,
    RateOverSum,
    Range,
    Absent,
    Present,
    Count,
    Stddev,
    Stdvar,
    IncreasePure,
    Lifetime,
    Lag,
    ScrapeInterval,
    Changes,
    ChangesPrometheus,
    Increases,
    Resets,
    ModeOverTime,
    AscentOverTime,
    DescentOverTime,
    ZscoreOverTime,
    First,
    Default,
    Distinct,
    DerivSlow,
    DerivFast,
    Ideriv,
    Delta,
    DeltaPrometheus,
    Idelta,
    Open,
    Close,
    High,
    Low,
    Integrate,
    Quantile(f64),
    PredictLinear(f64),
    HoltWinters(f64, f64),
    UntilNext,
    StaleSamples,
}

// The chosen rollup's figure for a window. One arm for each is plainer than a table of functions: the rollups are handed different things,
// three of them parameters that stand in their cases, and a match is checked to have them all. Nor does the gate let a function make a
// pointer to one, or a closure over one, and hand it out.
fn figure(
    handler: RollupHandler,
    rfa: RollupFuncArg,
    values: &[u64],
    timestamps: &[i64],
    work: &mut [f64],
) -> f64
    requires { Ready rfa values.now timestamps.now (length work.old) }
    ensures { result ≡ figure_of handler rfa values.now (floats values.now) timestamps.now }
{
    let ranged = RangedWindow {
        rfa,
        values,
        timestamps,
    };
    match handler {
        RollupHandler::Avg => rollup_avg(rfa, values),
        RollupHandler::Min => rollup_min(rfa, values),
        RollupHandler::Max => rollup_max(rfa, values),
        RollupHandler::Mad => rollup_mad(rfa, values, work),
        RollupHandler::Median => rollup_median(rfa, values, work),
        RollupHandler::Tmin => rollup_tmin(rfa, values, timestamps),
        RollupHandler::Tmax => rollup_tmax(rfa, values, timestamps),
        RollupHandler::Tfirst => rollup_tfirst(rfa, timestamps),
        RollupHandler::Tlast => rollup_tlast(rfa, timestamps),
        RollupHandler::TlastChange => rollup_tlast_change(rfa, values, timestamps),
        RollupHandler::Sum => rollup_sum(rfa, values),
        RollupHandler::Sum2 => rollup_sum2(rfa, values),
        RollupHandler::RateOverSum => rollup_rate_over_sum(rfa, values),
        RollupHandler::Range => rollup_range(rfa, values),
        RollupHandler::Absent => rollup_absent(rfa, values),
        RollupHandler::Present => rollup_present(rfa, values),
        RollupHandler::Count => rollup_count(rfa, values),
        RollupHandler::Stddev => rollup_stddev(rfa, values),
        RollupHandler::Stdvar => rollup_stdvar(rfa, values),
        RollupHandler::IncreasePure => rollup_increase_pure(rfa, values),
        RollupHandler::Lifetime => rollup_lifetime(&ranged),
        RollupHandler::Lag => rollup_lag(&ranged),
        RollupHandler::ScrapeInterval => rollup_scrape_interval(&ranged),
        RollupHandler::Changes => rollup_changes(rfa, values),
        RollupHandler::ChangesPrometheus => rollup_changes_prometheus(rfa, values),
        RollupHandler::Increases => rollup_increases(rfa, values),
        RollupHandler::Resets => rollup_resets(rfa, values),
        RollupHandler::ModeOverTime => rollup_mode_over_time(rfa, values, work),
        RollupHandler::AscentOverTime => rollup_ascent_over_time(rfa, values),
        RollupHandler::DescentOverTime => rollup_descent_over_time(rfa, values),
        RollupHandler::ZscoreOverTime => rollup_zscore_over_time(&ranged),
        RollupHandler::First => rollup_first(rfa, values),
        RollupHandler::Default => rollup_default(rfa, values),
        RollupHandler::Distinct => rollup_distinct(rfa, values, work),
        RollupHandler::DerivSlow => rollup_deriv_slow(&ranged),
        RollupHandler::DerivFast => rollup_deriv_fast(&ranged),
        RollupHandler::Ideriv => rollup_ideriv(&ranged),
        RollupHandler::Delta => rollup_delta(rfa, values),
        RollupHandler::DeltaPrometheus => rollup_delta_prometheus(rfa, values),
        RollupHandler::Idelta => rollup_idelta(rfa, values),
        RollupHandler::Open => rollup_open(&ranged),
        RollupHandler::Close => rollup_close(&ranged),
        RollupHandler::High => rollup_high(&ranged),
        RollupHandler::Low => rollup_low(&ranged),
        RollupHandler::Integrate => rollup_integrate(&ranged),
        RollupHandler::Quantile(phi) => rollup_quantile(rfa, values, work, phi),
        RollupHandler::PredictLinear(secs) => rollup_predict_linear(&ranged, secs),
        RollupHandler::HoltWinters(sf, tf) => holt_winters_internal(rfa, values, sf, tf),
        RollupHandler::UntilNext => rollup_until_next(rfa),
        RollupHandler::StaleSamples => rollup_stale_samples(rfa, values),
    }
}

// Whether a rollup sees the staleness marks of a series; for the others they are taken out of it.
pub fn sees_marks(handler: RollupHandler) -> bool
    ensures { result ≡ sees_marks handler }
{
    match handler {
        RollupHandler::Default | RollupHandler::StaleSamples => true,
        _ => false,
    }
}

// Whether the rollup's answer is a staleness mark: default's, where the last value is one.
fn answers_mark(handler: RollupHandler, values: &[u64]) -> bool
    ensures { result ≡ answers_mark handler values.now }
{
    match handler {
        RollupHandler::Default => ieee::is_stale_nan(last_or(values, 0)),
        _ => false,
    }
}

// The bits of the chosen rollup's figure for a window, NaN as 0x7FF8000000000000, but a mark's own. For n values a rollup is
// lent the first 2 × n entries of the work slice. What it leaves in them is open; the others stay as they are.
pub fn eval(
    handler: RollupHandler,
    rfa: RollupFuncArg,
    values: &[u64],
    timestamps: &[i64],
    work: &mut [f64],
) -> u64
    requires { Ready rfa values.now timestamps.now (length work.old) }
    ensures value { result ≡ eval_of handler rfa values.now timestamps.now }
    ensures work_unchanged { drop (2 * length values.now) work.new ≡ drop (2 * length values.now) work.old }
{
    if answers_mark(handler, values) {
        return ieee::STALE_NAN_BITS;
    }
    let m = 2 * values.len();
    ieee::bits_of(figure(handler, rfa, values, timestamps, &mut work[..m]))
}

// How many samples a call of the rollup is taken to scan; 0 stands for all of its window, as in the number that C
// hands in.
pub fn rollup_samples_scanned_per_call(handler: RollupHandler) -> usize
    ensures { result ≡ scanned_per_call handler }
{
    match handler {
        RollupHandler::Avg
        | RollupHandler::Min
        | RollupHandler::Max
        | RollupHandler::Mad
        | RollupHandler::Median
        | RollupHandler::Tmin
        | RollupHandler::Tmax
        | RollupHandler::TlastChange
        | RollupHandler::Sum
        | RollupHandler::Sum2
        | RollupHandler::RateOverSum
        | RollupHandler::Range
        | RollupHandler::Stddev
        | RollupHandler::Stdvar
        | RollupHandler::Changes
        | RollupHandler::ChangesPrometheus
        | RollupHandler::Increases
        | RollupHandler::Resets
        | RollupHandler::ModeOverTime
        | RollupHandler::AscentOverTime
        | RollupHandler::DescentOverTime
        | RollupHandler::ZscoreOverTime
        | RollupHandler::Distinct
        | RollupHandler::DerivSlow
        | RollupHandler::Open
        | RollupHandler::Close
        | RollupHandler::High
        | RollupHandler::Low
        | RollupHandler::Integrate
        | RollupHandler::Quantile(_)
        | RollupHandler::PredictLinear(_)
        | RollupHandler::HoltWinters(_, _)
        | RollupHandler::StaleSamples => 0,
        RollupHandler::Tfirst
        | RollupHandler::Tlast
        | RollupHandler::Absent
        | RollupHandler::Present
        | RollupHandler::Count
        | RollupHandler::Lag
        | RollupHandler::First
        | RollupHandler::Default
        | RollupHandler::UntilNext => 1,
        RollupHandler::IncreasePure
        | RollupHandler::Lifetime
        | RollupHandler::ScrapeInterval
        | RollupHandler::DerivFast
        | RollupHandler::Ideriv
        | RollupHandler::Delta
        | RollupHandler::DeltaPrometheus
        | RollupHandler::Idelta => 2,
    }
}

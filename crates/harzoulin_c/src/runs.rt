// Exported: the functions of `harzoulin::runs`.

ghost use Rattle.std.specs.Prelude.{◌≡◌};
ghost use Rattle.steps.specs.Choice.{step_of};
ghost use Rattle.rollup.specs.Choice.{rollup_of};
ghost use Rattle.run.specs.Run.{lent};
ghost use Rattle.harzoulin.specs.Exported.{crossed, exported};
ghost use Rattle.harzoulin.specs.Runs.{choice_of, numbered_run, numbered_settled_run, settled_config_of};
ghost use Rattle.harzoulin.specs.Settle.{config_of};

#[unsafe(no_mangle)]
pub extern "C" fn harzoulin_run(
    timestamps: &[i64],
    values: &[u64],
    pre: u32,
    rollup: u32,
    first: f64,
    second: f64,
    start: i64,
    end: i64,
    step: i64,
    window: i64,
    may_adjust_window: bool,
    is_default_rollup: bool,
    lookback_delta: i64,
    min_staleness_interval: i64,
    max_points_per_series: i64,
    samples_scanned_per_call: u64,
    dst_values: &mut [u64],
    prepared: &mut [u64],
    remaining: &mut [i64],
    work: &mut [f64],
    count: &mut u64,
    index: &mut u64,
) -> u64
    ensures { exported result index.new count.new (lent dst_values.new prepared.new remaining.new work.new) ≡ crossed (numbered_run (choice_of (step_of pre) (rollup_of rollup first second)) timestamps.now values.now (config_of start end step window may_adjust_window is_default_rollup lookback_delta min_staleness_interval max_points_per_series samples_scanned_per_call) (lent dst_values.old prepared.old remaining.old work.old)) count.old }
{
    harzoulin::runs::harzoulin_run(
        timestamps,
        values,
        pre,
        rollup,
        first,
        second,
        start,
        end,
        step,
        window,
        may_adjust_window,
        is_default_rollup,
        lookback_delta,
        min_staleness_interval,
        max_points_per_series,
        samples_scanned_per_call,
        dst_values,
        prepared,
        remaining,
        work,
        count,
        index,
    )
}

#[unsafe(no_mangle)]
pub extern "C" fn harzoulin_settled_run(
    timestamps: &[i64],
    values: &[u64],
    pre: u32,
    rollup: u32,
    first: f64,
    second: f64,
    start: i64,
    end: i64,
    step: i64,
    window: i64,
    reach: i64,
    samples_scanned_per_call: u64,
    dst_values: &mut [u64],
    prepared: &mut [u64],
    remaining: &mut [i64],
    work: &mut [f64],
    count: &mut u64,
    index: &mut u64,
) -> u64
    ensures { exported result index.new count.new (lent dst_values.new prepared.new remaining.new work.new) ≡ crossed (numbered_settled_run (choice_of (step_of pre) (rollup_of rollup first second)) timestamps.now values.now (settled_config_of start end step window reach samples_scanned_per_call) (lent dst_values.old prepared.old remaining.old work.old)) count.old }
{
    harzoulin::runs::harzoulin_settled_run(
        timestamps,
        values,
        pre,
        rollup,
        first,
        second,
        start,
        end,
        step,
        window,
        reach,
        samples_scanned_per_call,
        dst_values,
        prepared,
        remaining,
        work,
        count,
        index,
    )
}

// Exported: the functions of `harzoulin::prepared`.

ghost use Rattle.std.specs.Prelude.{◌≡◌};
ghost use Rattle.steps.specs.Choice.{step_of};
ghost use Rattle.harzoulin.specs.Exported.{crossed, exported};
ghost use Rattle.harzoulin.specs.Prepare.{numbered_prepare};

#[unsafe(no_mangle)]
pub extern "C" fn harzoulin_prepare(
    timestamps: &[i64],
    values: &[u64],
    pre: u32,
    prepared: &mut [u64],
    index: &mut u64,
) -> u64
    ensures { exported result index.new tt prepared.new ≡ crossed (numbered_prepare (step_of pre) timestamps.now values.now prepared.old) tt }
{
    harzoulin::prepared::harzoulin_prepare(timestamps, values, pre, prepared, index)
}

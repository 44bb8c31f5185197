// `harzoulin_prepare`: `prepare::prepare` with its step by number.

ghost use Rattle.std.specs.Prelude.{◌≡◌};
ghost use Rattle.steps.specs.Choice.{step_of};
ghost use Rattle.harzoulin.specs.Exported.{crossed, exported};
ghost use Rattle.harzoulin.specs.Prepare.{numbered_prepare};

use crate::refuse;
use series::{Refusal, Series};

pub fn harzoulin_prepare(
    timestamps: &[i64],
    values: &[u64],
    pre: u32,
    prepared: &mut [u64],
    index: &mut u64,
) -> u64
    ensures { exported result index.new tt prepared.new ≡ crossed (numbered_prepare (step_of pre) timestamps.now values.now prepared.old) tt }
{
    let Some(known) = steps::step_of(pre) else {
        return refuse(Refusal::UnknownNumber, index);
    };
    let series = Series { timestamps, values };
    if let Err(r) = prepare::prepare(&series, known, prepared) {
        return refuse(r, index);
    }
    *index = 0;
    0
}

// A window whose times may be taken from each other.

ghost use Rattle.window.specs.Types.{Ranged};

use window::types::RollupFuncArg;

// The record of one output time, with the readings of its window beside it. The times of both are in range.
// It asks nothing of the lengths: most rollups that are handed it end with the shorter slice.
#[derive(Clone, Copy)]
pub struct RangedWindow<'a> {
    pub rfa: RollupFuncArg,
    pub values: &'a [u64],
    pub timestamps: &'a [i64],
    ghost in_range: { Ranged rfa timestamps.now },
}

// `harzoulin_merge`: `merge_series::merge` over numbers. The length is set on acceptance only.

ghost use Rattle.std.specs.Prelude.{◌≡◌};
ghost use Rattle.merge_series.specs.Call.{merge_of};
ghost use Rattle.merge_series.specs.Merge.{series};
ghost use Rattle.harzoulin.specs.Exported.{crossed, exported};

use crate::answered;
use series::Series;

pub fn harzoulin_merge(
    first_timestamps: &[i64],
    first_values: &[u64],
    second_timestamps: &[i64],
    second_values: &[u64],
    timestamps: &mut [i64],
    values: &mut [u64],
    length: &mut u64,
    index: &mut u64,
) -> u64
    ensures { exported result index.new length.new (series timestamps.new values.new) ≡ crossed (merge_of (series first_timestamps.now first_values.now) (series second_timestamps.now second_values.now) (series timestamps.old values.old)) length.old }
{
    let first = Series {
        timestamps: first_timestamps,
        values: first_values,
    };
    let second = Series {
        timestamps: second_timestamps,
        values: second_values,
    };
    let merged = merge_series::merge(&first, &second, timestamps, values);
    answered(merged.map(|n| n as u64), length, index)
}

// `harzoulin_crossings` and `harzoulin_nearest`: `crossings::crossings` and `crossings::nearest` over numbers.
// What the answers hold is set on acceptance only.

ghost use Rattle.std.specs.Prelude.{◌≡◌};
ghost use Rattle.crossings.specs.Crossings.{crossings_of};
ghost use Rattle.harzoulin.specs.Exported.{crossed, exported};
ghost use Rattle.harzoulin.specs.Readings.{nearest_outcome, placed};

use crate::{answered, refuse};
use series::Series;

pub fn harzoulin_crossings(
    timestamps: &[i64],
    values: &[u64],
    limit: f64,
    indexes: &mut [u64],
    count: &mut u64,
    index: &mut u64,
) -> u64
    ensures { exported result index.new count.new indexes.new ≡ crossed (crossings_of timestamps.now values.now limit indexes.old) count.old }
{
    let series = Series { timestamps, values };
    let listed = crossings::crossings(&series, limit, indexes);
    answered(listed, count, index)
}

// Found is 1 and nearest the index, or both are 0 where there is no reading.
pub fn harzoulin_nearest(
    timestamps: &[i64],
    time: i64,
    found: &mut u64,
    nearest: &mut u64,
    index: &mut u64,
) -> u64
    ensures { exported result index.new (placed found.new nearest.new) tt ≡ crossed (nearest_outcome timestamps.now time) (placed found.old nearest.old) }
{
    match crossings::nearest(timestamps, time) {
        Err(r) => refuse(r, index),
        Ok(None) => {
            *found = 0;
            *nearest = 0;
            *index = 0;
            0
        }
        Ok(Some(i)) => {
            *found = 1;
            *nearest = i as u64;
            *index = 0;
            0
        }
    }
}

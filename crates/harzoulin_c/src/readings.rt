// Exported: the functions of `harzoulin::readings`.

ghost use Rattle.std.specs.Prelude.{◌≡◌};
ghost use Rattle.crossings.specs.Crossings.{crossings_of};
ghost use Rattle.harzoulin.specs.Exported.{crossed, exported};
ghost use Rattle.harzoulin.specs.Readings.{nearest_outcome, placed};

#[unsafe(no_mangle)]
pub extern "C" fn harzoulin_crossings(
    timestamps: &[i64],
    values: &[u64],
    limit: f64,
    indexes: &mut [u64],
    count: &mut u64,
    index: &mut u64,
) -> u64
    ensures { exported result index.new count.new indexes.new ≡ crossed (crossings_of timestamps.now values.now limit indexes.old) count.old }
{
    harzoulin::readings::harzoulin_crossings(timestamps, values, limit, indexes, count, index)
}

// Found is 1 and nearest the index, or both are 0 where there is no reading.
#[unsafe(no_mangle)]
pub extern "C" fn harzoulin_nearest(
    timestamps: &[i64],
    time: i64,
    found: &mut u64,
    nearest: &mut u64,
    index: &mut u64,
) -> u64
    ensures { exported result index.new (placed found.new nearest.new) tt ≡ crossed (nearest_outcome timestamps.now time) (placed found.old nearest.old) }
{
    harzoulin::readings::harzoulin_nearest(timestamps, time, found, nearest, index)
}

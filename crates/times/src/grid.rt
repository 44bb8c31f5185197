// The grid of output times, `get_timestamps` of execution/eval.rs without its vector: how many times there are,
// and the one at an index.

ghost use Rattle.std.specs.Prelude.{◌≡◌};
ghost use Rattle.times.specs.Grid.{Spans, OnGrid, grid_size, time_at};

// How many times start, start + step, and so on has that are not past end.
pub fn points(start: i64, end: i64, step: i64) -> u64
    requires { Spans start end step }
    ensures { result ≡ grid_size start end step }
{
    ((end - start) / step) as u64 + 1
}

// The time at index k.
pub fn time_at(start: i64, step: i64, k: u64) -> i64
    requires { OnGrid start step k }
    ensures { result ≡ time_at start step k }
{
    start + (k as i64) * step
}

// The mode of a window: the value that stands most often in a row among the sorted samples, with the
// predecessor standing before them for one sample.

ghost use Rattle.std.specs.Prelude.{◌≡◌, ◌*◌, ◌≤◌, length, drop};
ghost use Rattle.ieee.specs.Patterns.{floats};
ghost use Rattle.math.specs.Mode.{is_outdone, mode_sorted, mode_of};

// Whether a run is longer than those before it, or the mode of those is NaN.
fn outdone(run: usize, d_max: usize, mode: f64) -> bool
    ensures { result ≡ is_outdone run d_max mode }
{
    run > d_max || ieee::is_nan(mode)
}

// The mode of sorted samples.
pub fn mode_sorted(prev_value: f64, a: &[f64]) -> f64
    ensures { result ≡ mode_sorted prev_value a.now }
{
    let mut prev = prev_value;
    let mut run = 1;
    let mut d_max = 0;
    let mut mode = prev_value;
    for x in a {
        if prev == *x {
            run += 1;
        } else {
            if outdone(run, d_max, mode) {
                d_max = run;
                mode = prev;
            }
            run = 1;
            prev = *x;
        }
    }
    if outdone(run, d_max, mode) {
        return prev;
    }
    mode
}

// The mode of the values: the first of those that stand most often, and the predecessor where there is
// no value.
pub fn mode_no_nans(prev_value: f64, values: &[u64], work: &mut [f64]) -> f64
    requires { 2 * length values.now ≤ length work.old }
    ensures value { result ≡ mode_of prev_value (floats values.now) }
    ensures work_unchanged { drop (2 * length values.now) work.new ≡ drop (2 * length values.now) work.old }
{
    sort::sort_values(values, work);
    mode_sorted(prev_value, &work[..values.len()])
}

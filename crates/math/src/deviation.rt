// The variance and the standard deviation of a window, by the running mean.

ghost use Rattle.std.specs.Prelude.{◌≡◌};
ghost use Rattle.ieee.specs.Patterns.{floats};
ghost use Rattle.math.specs.Deviation.{stdvar_of, stddev_of};

// The variance of the values: NaN of none, 0.0 of one. NaN is passed over among two or more.
pub fn stdvar(values: &[u64]) -> f64
    ensures { result ≡ stdvar_of (floats values.now) }
{
    if values.is_empty() {
        return ieee::nan();
    }
    if values.len() == 1 {
        return 0.0;
    }
    let mut avg = 0.0;
    let mut count = 0;
    let mut q = 0.0;
    for b in values {
        let v = ieee::value_of(*b);
        if !ieee::is_nan(v) {
            count += 1;
            let avg_new = avg + (v - avg) / ieee::of_count(count);
            q = q + (v - avg) * (v - avg_new);
            avg = avg_new;
        }
    }
    if count == 0 {
        return ieee::nan();
    }
    q / ieee::of_count(count)
}

// The standard deviation: the root of the variance, correctly rounded.
pub fn stddev(values: &[u64]) -> f64
    ensures { result ≡ stddev_of (floats values.now) }
{
    root::sqrt(stdvar(values))
}

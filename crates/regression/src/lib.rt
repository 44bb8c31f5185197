// The least-squares line through a window, over seconds since an intercept time.
#![tactic(auto)]

ghost use Rattle.std.specs.Prelude.{◌≡◌, ℕ, ◌<◌, pos, ◌-ℤ◌, length, get_or};
ghost use Rattle.std.specs.Int.{w64};
ghost use Rattle.std.proofs.Common.{SFits};
ghost use Rattle.ieee.specs.Patterns.{floats};
ghost use Rattle.regression.specs.Regression.{are_const, no_sums, sums_from, sums_with, line_of, regression_of};

// A line's value at the intercept time, and its slope in a second.
#[derive(Drop)]
pub struct Line {
    pub v: f64,
    pub k: f64,
}

// The sums that a line is made of.
#[derive(Drop)]
pub struct Sums {
    pub v_sum: f64,
    pub t_sum: f64,
    pub tv_sum: f64,
    pub tt_sum: f64,
}

impl Sums {
    // The sums with a reading's value v at dt seconds taken in.
    fn with(self, dt: f64, v: f64) -> Sums
        ensures { result ≡ sums_with self dt v }
    {
        Sums {
            v_sum: self.v_sum + v,
            t_sum: self.t_sum + dt,
            tv_sum: self.tv_sum + dt * v,
            tt_sum: self.tt_sum + dt * dt,
        }
    }
}

// Whether no value differs from the one before it.
pub fn are_const_values(values: &[u64]) -> bool
    ensures { result ≡ are_const (floats values.now) }
{
    let Some((first, rest)) = values.split_first() else {
        return true;
    };
    // `all` over the pairs makes each value twice, which took 1.1 times as long.
    let mut v_prev = ieee::value_of(*first);
    for b in rest {
        let v = ieee::value_of(*b);
        if v != v_prev {
            return false;
        }
        v_prev = v;
    }
    true
}

// The sums over the readings, as many as there are both values and times.
fn sum_up(values: &[u64], timestamps: &[i64], intercept_time: i64) -> Sums
    requires by_index { (i : ℕ) → i < length timestamps.now → SFits w64 (get_or timestamps.now i (pos 0) -ℤ intercept_time) }
    ensures { result ≡ sums_from intercept_time no_sums timestamps.now (floats values.now) }
{
    let mut sums = Sums {
        v_sum: 0.0,
        t_sum: 0.0,
        tv_sum: 0.0,
        tt_sum: 0.0,
    };
    // A zip here took 1.2 times as long.
    for i in 0..values.len().min(timestamps.len()) {
        sums = sums.with(
            ieee::seconds(timestamps[i] - intercept_time),
            ieee::value_of(values[i]),
        );
    }
    sums
}

// The line through n readings with these sums.
fn fit(s: Sums, n: f64) -> Line
    ensures { result ≡ line_of s n }
{
    let t_diff = s.tt_sum - s.t_sum * s.t_sum / n;
    let mut k = 0.0;
    // a division by too small a t_diff would be wrong
    if ieee::abs(t_diff) >= 0.000001 {
        k = (s.tv_sum - s.t_sum * s.v_sum / n) / t_diff;
    }
    Line {
        v: s.v_sum / n - k * s.t_sum / n,
        k,
    }
}

// The line through the readings: NaN twice where there is none; where the values are equal, the first
// value and no slope.
pub fn linear_regression(values: &[u64], timestamps: &[i64], intercept_time: i64) -> Line
    requires by_index { (i : ℕ) → i < length timestamps.now → SFits w64 (get_or timestamps.now i (pos 0) -ℤ intercept_time) }
    ensures { result ≡ regression_of (floats values.now) timestamps.now intercept_time }
{
    let n = values.len();
    if n == 0 {
        return Line {
            v: ieee::nan(),
            k: ieee::nan(),
        };
    }
    if are_const_values(values) {
        return Line {
            v: ieee::value_of(values[0]),
            k: 0.0,
        };
    }
    fit(
        sum_up(values, timestamps, intercept_time),
        ieee::of_count(n),
    )
}

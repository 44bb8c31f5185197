// The window record that every rollup is handed, and how a rollup reads the window beside it.

ghost use Rattle.std.specs.Prelude.{Bool, cond, true, ◌≡◌, ◌+◌, ◌-◌, ◌≤◌, ◌<◌, ◌^◌, drop, get_or, length, take, nat_abs, ◌-ℤ◌};
ghost use Rattle.std.specs.Int.Signed.{lt_z};
ghost use Rattle.std.specs.Float.{binary64};
ghost use Rattle.std.specs.Float.Ieee.{is_nan, of_bits};
ghost use Rattle.ieee.specs.Patterns.{floats};
ghost use Rattle.ieee.specs.Value.{seconds_of};
ghost use Rattle.window.specs.Types.{AllFinite};
ghost use Rattle.window.specs.Tests.{Tests};
ghost use Rattle.window.specs.Window.{first_of, first_or, last_of, last_or, up_to_last};

// Values are NaN where there is none, as in the Rust: a value may be NaN itself, and no rollup tells the two apart. No time could stand for
// none.
#[derive(Clone, Copy)]
pub struct RollupFuncArg {
    // The value of the last reading at or before the window's start, if that reading is later than the start
    // less the reach and some reading is later than the start; else NaN.
    pub prev_value: f64,
    // The time of that reading where its value is used, else the window's start less the reach.
    pub prev_timestamp: i64,
    // The value of the last reading at or before the window's start, on neither condition; NaN where there is none.
    pub real_prev_value: f64,
    // The first value after the output time; NaN where there is none.
    pub real_next_value: f64,
    // The first time after the output time, where a reading stands there.
    pub next_timestamp: Option<i64>,
    // The output time.
    pub curr_timestamp: i64,
    // The window's length.
    pub window: i64,
}

// The value at i.
pub fn value_at(values: &[u64], i: usize) -> f64
    requires { i < length values.now }
    ensures { result ≡ of_bits binary64 (get_or values.now i 0) }
{
    ieee::value_of(values[i])
}

// Whether every value is known to be finite. The fold has no early way out, as `all` has, so that it takes several values at a time:
// a loop that looks for no NaN in them afterwards is spared more than this one costs.
pub fn are_finite(values: &[u64]) -> bool
    ensures { result ≡ true → AllFinite values.now }
{
    values
        .iter()
        .fold(true, |known, b| known & ieee::is_finite(*b))
}

// The first value, NaN where there is none. `first_or` is another function: there an item stands for itself, here a pattern is read as a value
// and NaN stands for none. So it is for `last`.
pub fn first(values: &[u64]) -> f64
    ensures { result ≡ first_of (floats values.now) }
{
    match values.first() {
        Some(b) => ieee::value_of(*b),
        None => ieee::nan(),
    }
}

// The last value, NaN where there is none.
pub fn last(values: &[u64]) -> f64
    ensures { result ≡ last_of (floats values.now) }
{
    match values.last() {
        Some(b) => ieee::value_of(*b),
        None => ieee::nan(),
    }
}

// The items after the first.
pub fn rest<T>(xs: &[T]) -> &[T]
    ensures { result.now ≡ drop 1 xs.now }
{
    match xs.split_first() {
        Some((_, rest)) => rest,
        None => xs,
    }
}

// Where a rollup over a window begins: at the predecessor, or else at the first value.
pub fn seed(prev_value: f64, values: &[u64]) -> f64
    ensures { result ≡ cond (is_nan prev_value) (first_of (floats values.now)) prev_value }
{
    if ieee::is_nan(prev_value) {
        return first(values);
    }
    prev_value
}

// The values after that.
pub fn after_seed(prev_value: f64, values: &[u64]) -> &[u64]
    ensures { result.now ≡ cond (is_nan prev_value) (drop 1 values.now) values.now }
{
    if ieee::is_nan(prev_value) {
        return rest(values);
    }
    values
}

// The first n items.
pub fn prefix<T>(xs: &[T], n: usize) -> &[T]
    requires { n ≤ length xs.now }
    ensures { result.now ≡ take n xs.now }
{
    &xs[..n]
}

// The items before the last.
pub fn init<T>(xs: &[T]) -> &[T]
    ensures { result.now ≡ take (length xs.now - 1) xs.now }
{
    match xs.split_last() {
        Some((_, init)) => init,
        None => xs,
    }
}

// The first item, d where there is none.
pub fn first_or<T: Copy>(xs: &[T], d: T) -> T
    ensures { result ≡ first_or d xs.now }
{
    xs.first().copied().unwrap_or(d)
}

// The last item, d where there is none.
pub fn last_or<T: Copy>(xs: &[T], d: T) -> T
    ensures { result ≡ last_or d xs.now }
{
    xs.last().copied().unwrap_or(d)
}

// Whether a is before b.
pub fn is_before(a: i64, b: i64) -> bool
    ensures { result ≡ lt_z a b }
{
    a < b
}

// How many items stand up to the last one that passes.
pub fn up_to_last<T, P: Fn(&T) -> bool>(xs: &[T], passes: P) -> usize
    requires { P.IsAlwaysCallable passes }
    ensures { (p : T → Bool) → Tests (P.post passes) p → result ≡ up_to_last p xs.now }
{
    match xs.iter().rposition(|x| passes(x)) {
        Some(i) => i + 1,
        None => 0,
    }
}

// How many readings stand up to the last one whose time is below t.
pub fn count_up_to(timestamps: &[i64], t: i64) -> usize
    ensures { result ≡ up_to_last (λ s. lt_z s t) timestamps.now }
{
    up_to_last(timestamps, |s| *s < t)
}

// The seconds from one time to another.
pub fn seconds_between(from: i64, to: i64) -> f64
    requires { nat_abs to + nat_abs from < 2 ^ 63 }
    ensures { result ≡ seconds_of (to -ℤ from) }
{
    ieee::seconds(to - from)
}

// Quantiles of a window: the median and the median absolute deviation are quantiles too. NaN is left
// out, the rest is sorted by `partial_cmp`, and the two values next to the rank are weighted.
//
// A work slice has room for twice as many entries as there are values, since nothing is allocated: half of it for the values, half for the
// copies that a sort makes. A struct of the two slices, with that room as its ghost field, was tried. It proves, but is no plainer: what is
// called with two slices asks for the room all the same, so that each contract stands twice; by `&mut` each method says besides that it
// keeps the reference and the values, and handed over by value the struct gets no proof where it is passed on whole.
#![tactic(auto)]

ghost use Rattle.std.specs.Prelude.{◌≡◌, ◌++◌, ◌*◌, ◌≤◌, Float, from_bits, length, map, take, drop};
ghost use Rattle.std.specs.Float.{binary64};
ghost use Rattle.std.specs.Float.Ieee.{sub};
ghost use Rattle.ieee.specs.Value.{abs_of};
ghost use Rattle.ieee.specs.Patterns.{floats};
ghost use Rattle.sort.specs.Values.{kept};
ghost use Rattle.order.specs.Order.{Sortable, sorted};
ghost use Rattle.quantile.specs.Found.{if_number, Finds};
ghost use Rattle.quantile.specs.Quantile.{deviations, quantile_sorted, quantile_of, median_of, mad_of};

use order::Order;

// The value of a pattern, where it is no NaN.
fn number(b: u64) -> Option<f64>
    ensures { result ≡ if_number (from_bits binary64 b) }
{
    if ieee::is_nan_pattern(b) {
        None
    } else {
        Some(ieee::number_of(b))
    }
}

// The distance of a pattern's value from a middle, where it is no NaN.
fn distance(b: u64, middle: f64) -> Option<f64>
    ensures { result ≡ if_number (abs_of (sub binary64 (from_bits binary64 b) middle)) }
{
    let d = ieee::value_of(b) - middle;
    if d.is_nan() {
        None
    } else {
        Some(ieee::magnitude(d))
    }
}

// Writes the numbers that are found of the values to the front of work, in order, and returns how many there are.
fn keep<F: Fn(u64) -> Option<f64>>(values: &[u64], work: &mut [f64], find: F) -> usize
    requires callable { F.IsAlwaysCallable find }
    requires room { length values.now ≤ length work.old }
    ensures few { result ≤ length values.now }
    ensures value { (of : Float → Float) → Finds (F.post find) of → result ≡ length (kept (map of (floats values.now))) }
    ensures work_after { (of : Float → Float) → Finds (F.post find) of → work.new ≡ kept (map of (floats values.now)) ++ drop result work.old }
{
    let mut n = 0;
    for b in values {
        if let Some(x) = find(*b) {
            work[n] = x;
            n += 1;
        }
    }
    n
}

// Copies the values' distances from a middle that are no NaN to the front of work, in order, and returns how many there are.
fn keep_deviations(values: &[u64], middle: f64, work: &mut [f64]) -> usize
    requires { length values.now ≤ length work.old }
    ensures value { result ≡ length (kept (deviations middle (floats values.now))) }
    ensures work_after { work.new ≡ kept (deviations middle (floats values.now)) ++ drop result work.old }
{
    keep(values, work, |b| distance(b, middle))
}

// The quantile of sorted values that are no NaN. No value, and a phi that is NaN, give NaN; a phi
// outside 0 to 1 gives the infinity on its side.
pub fn quantile_sorted(phi: f64, values: &[f64]) -> f64
    ensures { result ≡ quantile_sorted phi values.now }
{
    let n = values.len();
    if n == 0 || phi.is_nan() {
        return f64::NAN;
    }
    if phi < 0.0 {
        return f64::NEG_INFINITY;
    }
    if phi > 1.0 {
        return f64::INFINITY;
    }
    let rank = phi * ieee::of_count(n - 1);
    let below = ieee::floor(rank);
    let lower = ieee::to_usize(below).min(n - 1);
    let upper = (lower + 1).min(n - 1);
    let weight = rank - below;
    values[lower] * (1.0 - weight) + values[upper] * weight
}

// The quantile of the first n entries of work, which are no NaN and are left sorted.
pub fn quantile_first(phi: f64, n: usize, work: &mut [f64]) -> f64
    requires n_in_bounds { 2 * n ≤ length work.old }
    requires sortable { Sortable Order.Partial (take n work.old) }
    ensures value { result ≡ quantile_sorted phi (sorted Order.Partial (take n work.old)) }
    ensures work_unchanged { drop (2 * n) work.new ≡ drop (2 * n) work.old }
{
    sort::sort(Order::Partial, &mut work[..2 * n]);
    quantile_sorted(phi, &work[..n])
}

// Copies the values that are no NaN to the front of work, sorts them there and returns how many there are.
pub fn prepare_for_quantile_float64(values: &[u64], work: &mut [f64]) -> usize
    requires { 2 * length values.now ≤ length work.old }
    ensures value { result ≡ length (kept (floats values.now)) }
    ensures work_after { take result work.new ≡ sorted Order.Partial (kept (floats values.now)) }
    ensures work_unchanged { drop (2 * length values.now) work.new ≡ drop (2 * length values.now) work.old }
{
    let kept = keep(values, work, number);
    sort::sort(Order::Partial, &mut work[..2 * kept]);
    kept
}

// The quantile of the values.
pub fn quantile(phi: f64, values: &[u64], work: &mut [f64]) -> f64
    requires { 2 * length values.now ≤ length work.old }
    ensures value { result ≡ quantile_of phi (floats values.now) }
    ensures work_unchanged { drop (2 * length values.now) work.new ≡ drop (2 * length values.now) work.old }
{
    let n = prepare_for_quantile_float64(values, work);
    quantile_sorted(phi, &work[..n])
}

// The value in the middle, or half way between the two next to it.
pub fn median(values: &[u64], work: &mut [f64]) -> f64
    requires { 2 * length values.now ≤ length work.old }
    ensures value { result ≡ median_of (floats values.now) }
    ensures work_unchanged { drop (2 * length values.now) work.new ≡ drop (2 * length values.now) work.old }
{
    quantile(0.5, values, work)
}

// The median of the values' distances from their median.
pub fn mad(values: &[u64], work: &mut [f64]) -> f64
    requires { 2 * length values.now ≤ length work.old }
    ensures value { result ≡ mad_of (floats values.now) }
    ensures work_unchanged { drop (2 * length values.now) work.new ≡ drop (2 * length values.now) work.old }
{
    let middle = median(values, work);
    let n = keep_deviations(values, middle, work);
    quantile_first(0.5, n, work)
}

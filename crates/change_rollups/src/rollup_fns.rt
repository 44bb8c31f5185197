// The rollups of rollup_fns.rs that go from value to value. Each answers NaN for a window that does not settle it.
// The record and the values come apart, as in the Rust: no rollup here needs anything of the two together, as those of a `RangedWindow` do
// (docs/DECISIONS.md, "Every rollup takes the window record").

ghost use Rattle.std.specs.Prelude.{Float, List, ℕ, ⊤, ◌&&◌, not, true, ◌≡◌, ◌<◌, ◌≤◌, get_or, length};
ghost use Rattle.std.specs.Float.{binary64};
ghost use Rattle.std.specs.Float.Ieee.{of_bits};
ghost use Rattle.std.specs.Float.Ieee.Scale.{finite};
ghost use Rattle.ieee.specs.Patterns.{floats};
ghost use Rattle.window.specs.Window.{seeded};
ghost use Rattle.change_rollups.specs.Seeded.{Computes};
ghost use Rattle.change_rollups.specs.RollupFns.{ascent_over_time_of, below_tolerance, changes_from, changes_of, changes_prometheus_of, descent_over_time_of, gap, increase_pure_of, increases_of, is_change, resets_of, slide_from, slide_of, steps_from, steps_of};

use ieee::nan;
use value_rollups::rollup_fns::is_beyond;
use window::types::{RollupFuncArg, after_seed, are_finite, first, last, rest, seed};

// The last value less the predecessor, which is 0.0 where there is none.
pub fn rollup_increase_pure(rfa: RollupFuncArg, values: &[u64]) -> f64
    ensures { result ≡ increase_pure_of rfa.prev_value (floats values.now) }
{
    if ieee::is_nan(rfa.prev_value) {
        if values.len() == 0 {
            return nan();
        }
        return last(values) - 0.0;
    }
    if values.len() == 0 {
        return 0.0;
    }
    last(values) - rfa.prev_value
}

// How a loop reads the values of a window and compares them.
trait Reading {
    // Which values it may be handed.
    ghost Reads: { Float → Type 0 };

    // The value of a pattern.
    fn value_of(b: u64) -> f64
        requires { Reads (of_bits binary64 b) }
        ensures { result ≡ of_bits binary64 b };

    // Whether the step from prev_value to v is too small to tell from a rounding error.
    fn is_below_tolerance(v: f64, prev_value: f64) -> bool
        requires value { Reads v }
        requires before { Reads prev_value }
        ensures { result ≡ below_tolerance v prev_value };
}

// Any values: a value may be NaN, and so may a step.
struct AnyValues;

impl Reading for AnyValues {
    ghost Reads = { λ v. ⊤ };

    fn value_of(b: u64) -> f64 {
        ieee::value_of(b)
    }

    fn is_below_tolerance(v: f64, prev_value: f64) -> bool {
        let step = v - prev_value;
        if ieee::is_nan(step) {
            return false;
        }
        let tolerance = 1e-12 * ieee::magnitude(v);
        ieee::magnitude(step) < tolerance
    }
}

// Finite values, whose difference is never NaN.
struct FiniteValues;

impl Reading for FiniteValues {
    ghost Reads = { λ v. finite v ≡ true };

    fn value_of(b: u64) -> f64 {
        ieee::number_of(b)
    }

    fn is_below_tolerance(v: f64, prev_value: f64) -> bool {
        let tolerance = 1e-12 * ieee::magnitude(v);
        ieee::magnitude(v - prev_value) < tolerance
    }
}

// Whether the step from prev_value to v counts as a change.
fn is_change(prev_value: f64, v: f64) -> bool
    ensures { result ≡ is_change prev_value v }
{
    if v == prev_value {
        return false;
    }
    !AnyValues::is_below_tolerance(v, prev_value)
}

// How many values differ from the compared one, which is the last that counted.
fn count_changes(prev_value: f64, values: &[u64]) -> usize
    ensures counted { result ≡ changes_from prev_value (floats values.now) }
    ensures within { result ≤ length values.now }
{
    let mut compared = prev_value;
    let mut n = 0;
    for b in values {
        let v = ieee::value_of(*b);
        if is_change(compared, v) {
            n += 1;
            compared = v;
        }
    }
    n
}

// The changes inside the window.
pub fn rollup_changes_prometheus(rfa: RollupFuncArg, values: &[u64]) -> f64
    ensures { result ≡ changes_prometheus_of (floats values.now) }
{
    if values.len() == 0 {
        return nan();
    }
    ieee::of_count(count_changes(first(values), rest(values)))
}

// The changes from the predecessor on; without one, the first value counts too.
pub fn rollup_changes(rfa: RollupFuncArg, values: &[u64]) -> f64
    ensures { result ≡ changes_of rfa.prev_value (floats values.now) }
{
    let alone = ieee::is_nan(rfa.prev_value);
    if alone && values.len() == 0 {
        return nan();
    }
    let n = count_changes(
        seed(rfa.prev_value, values),
        after_seed(rfa.prev_value, values),
    );
    if alone {
        return ieee::of_count(n + 1);
    }
    ieee::of_count(n)
}

// Whether a step is known not to count before its size is. Steps down are few where they are looked for, in a counter, and a jump
// on them is foreseen. Steps up are as many as others in most series, and the jump that would spare a look at the size would be
// guessed wrong every other time.
fn is_passed_over(down: bool, beyond: bool) -> bool
    ensures { result ≡ (down && not beyond) }
{
    if down { !beyond } else { false }
}

// How many steps go the given way, those below the tolerance left out.
fn count_steps_read<R: Reading>(down: bool, prev_value: f64, values: &[u64]) -> f64
    requires before { R.Reads prev_value }
    requires each { (i : ℕ) → i < length values.now → R.Reads (of_bits binary64 (get_or values.now i 0)) }
    ensures { result ≡ steps_from down prev_value (floats values.now) }
{
    let mut compared = prev_value;
    let mut n = 0;
    for b in values {
        let v = R::value_of(*b);
        let beyond = is_beyond(down, compared, v);
        if is_passed_over(down, beyond) {
            compared = v;
        } else if R::is_below_tolerance(v, compared) {
            if !beyond {
                compared = v;
            }
        } else {
            if beyond {
                n += 1;
            }
            compared = v;
        }
    }
    ieee::of_count(n)
}

// How many steps go the given way, those below the tolerance left out.
fn count_steps(down: bool, prev_value: f64, values: &[u64]) -> f64
    ensures { result ≡ steps_from down prev_value (floats values.now) }
{
    if prev_value.is_finite() && are_finite(values) {
        return count_steps_read::<FiniteValues>(down, prev_value, values);
    }
    count_steps_read::<AnyValues>(down, prev_value, values)
}

// What f gives from the predecessor over the window; without a predecessor, from the first value over the others; NaN where there is
// neither.
fn seeded<F: FnOnce(f64, &[u64]) -> f64>(prev_value: f64, values: &[u64], f: F) -> f64
    requires { F.IsAlwaysCallable f }
    ensures { (g : Float → List Float → Float) → Computes (F.post f) g → result ≡ seeded g prev_value (floats values.now) }
{
    if ieee::is_nan(prev_value) && values.len() == 0 {
        return nan();
    }
    // One call, so that a loop in f stands once in the compiled code.
    f(seed(prev_value, values), after_seed(prev_value, values))
}

// The steps that go the given way, from the predecessor, or else from the first value, on.
fn steps_over(down: bool, rfa: RollupFuncArg, values: &[u64]) -> f64
    ensures { result ≡ steps_of down rfa.prev_value (floats values.now) }
{
    seeded(rfa.prev_value, values, |start, others| {
        count_steps(down, start, others)
    })
}

pub fn rollup_increases(rfa: RollupFuncArg, values: &[u64]) -> f64
    ensures { result ≡ increases_of rfa.prev_value (floats values.now) }
{
    steps_over(false, rfa, values)
}

pub fn rollup_resets(rfa: RollupFuncArg, values: &[u64]) -> f64
    ensures { result ≡ resets_of rfa.prev_value (floats values.now) }
{
    steps_over(true, rfa, values)
}

// By how much v lies beyond prev_value, the given way.
fn gap_to(down: bool, prev_value: f64, v: f64) -> f64
    ensures { result ≡ gap down prev_value v }
{
    if down { prev_value - v } else { v - prev_value }
}

// The sum of the steps that go the given way.
fn slide_over(down: bool, prev_value: f64, values: &[u64]) -> f64
    ensures { result ≡ slide_from down prev_value (floats values.now) }
{
    let (_, sum) = values.iter().fold((prev_value, 0.0), |(before, sum), b| {
        let v = ieee::value_of(*b);
        let d = gap_to(down, before, v);
        (v, if d > 0.0 { sum + d } else { sum })
    });
    sum
}

// The sum of the steps that go the given way, from the predecessor, or else from the first value, on.
fn slide_from_predecessor(down: bool, rfa: RollupFuncArg, values: &[u64]) -> f64
    ensures { result ≡ slide_of down rfa.prev_value (floats values.now) }
{
    seeded(rfa.prev_value, values, |start, others| {
        slide_over(down, start, others)
    })
}

pub fn rollup_ascent_over_time(rfa: RollupFuncArg, values: &[u64]) -> f64
    ensures { result ≡ ascent_over_time_of rfa.prev_value (floats values.now) }
{
    slide_from_predecessor(false, rfa, values)
}

pub fn rollup_descent_over_time(rfa: RollupFuncArg, values: &[u64]) -> f64
    ensures { result ≡ descent_over_time_of rfa.prev_value (floats values.now) }
{
    slide_from_predecessor(true, rfa, values)
}

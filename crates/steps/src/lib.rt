// The preparing steps, from the values' patterns to the prepared ones, one pass each.
#![tactic(auto)]

mod choice;

ghost use Rattle.std.specs.Prelude.{◌≡◌, Bool, true, false, length};
ghost use Rattle.ieee.specs.Patterns.{patterns};
ghost use Rattle.times.specs.Milli.{time_limit, Within};
ghost use Rattle.times.specs.Leading.{leading};
ghost use Rattle.series.specs.Rows.{time_inside};
ghost use Rattle.steps.specs.Steps.{begun, corrected, counter_after, counter_after_either, counter_after_once, grown, outputs_from, resets, resets_once, deltas, sloped, derivs, whole_seconds, intervals};

pub use choice::step_of;
use series::Numbers;

// What is done to a series' values before they are rolled up.
#[derive(Clone, Copy)]
pub enum PreFunction {
    None,
    Resets,
    Delta,
    Deriv,
    Intervals,
    ResetsOnce,
}

// What a counter step keeps from one value to the next: the correction, the raw value before and its output.
#[derive(Clone, Copy)]
pub struct Counter {
    pub correction: f64,
    pub value: f64,
    pub output: f64,
}

// The last slope, and the reading that the next one is taken from.
#[derive(Clone, Copy)]
pub struct Slope {
    pub deriv: f64,
    pub value: f64,
    pub ts: i64,
}

// The correction c once the raw value v is compared with p.
fn correction_after(c: f64, p: f64, v: f64) -> f64
    ensures { result ≡ grown c p v }
{
    let d = v - p;
    if d < 0.0 {
        // A fall by less than an eighth is likely a partial counter reset.
        if -d * 8.0 < p {
            return c + (p - v);
        }
        return c + p;
    }
    c
}

// The same without a jump on the values, which is faster where p is at hand early, and slower where the turn before works it out. To
// add -0.0 leaves any number as it is.
fn correction_without_jumps(c: f64, p: f64, v: f64) -> f64
    ensures { result ≡ grown c p v }
{
    let d = v - p;
    let partial = p - v;
    let fallen = if -d * 8.0 < p { partial } else { p };
    let more = if d < 0.0 { fallen } else { -0.0 };
    c + more
}

impl Counter {
    // The state before the first value. Nothing lies below -infinity, so that value is no reset.
    pub fn new() -> Counter
        ensures { result ≡ begun }
    {
        Counter {
            correction: 0.0,
            value: f64::NEG_INFINITY,
            output: f64::NEG_INFINITY,
        }
    }

    // The state after the raw value v, once the correction is known.
    fn corrected(self, correction: f64, v: f64) -> Counter
        ensures { result ≡ corrected correction self v }
    {
        Counter {
            correction,
            value: v,
            output: order::greater(self.output, v + correction),
        }
    }

    // The state after the raw value v, with v's output: v is compared with the output before.
    pub fn next(self, v: f64) -> Counter
        ensures { result ≡ counter_after self v }
    {
        self.corrected(correction_after(self.correction, self.output, v), v)
    }

    // The same where v is compared with the raw value before, so that a restart is corrected once.
    pub fn next_once(self, v: f64) -> Counter
        ensures { result ≡ counter_after_once self v }
    {
        self.corrected(correction_without_jumps(self.correction, self.value, v), v)
    }
}

// A counter step: which state follows a value.
trait CounterStep {
    // Whether a restart is corrected again.
    ghost again: { Bool };

    // The state after the raw value v.
    fn next(counter: Counter, v: f64) -> Counter
        ensures { result ≡ counter_after_either again counter v };
}

// After a restart each value that is still below the output before it is corrected again.
struct CorrectedAgain;

impl CounterStep for CorrectedAgain {
    ghost again = { true };

    fn next(counter: Counter, v: f64) -> Counter {
        counter.next(v)
    }
}

// A restart is corrected once.
struct CorrectedOnce;

impl CounterStep for CorrectedOnce {
    ghost again = { false };

    fn next(counter: Counter, v: f64) -> Counter {
        counter.next_once(v)
    }
}

// Each value's output under a counter step. As in the other steps the value at an index is read and its place written: one index is plainer
// than `zip` and `iter_mut` with what is known of the values beside them. The slice that is written has the length of the one that is read, which
// each clause asks: a struct of both would hold a `&mut`, as in run.
fn correct<S: CounterStep, N: Numbers>(values: &N, prepared: &mut [u64])
    requires { length prepared.old ≡ length (N.numbers values.now) }
    ensures { prepared.new ≡ patterns (outputs_from (counter_after_either S.again) begun (N.numbers values.now)) }
{
    let mut counter = Counter::new();
    for i in 0..values.count() {
        counter = S::next(counter, values.at(i));
        prepared[i] = ieee::number_bits(counter.output);
    }
}

// Each value with the counter's resets added back.
pub fn remove_counter_resets<N: Numbers>(values: &N, prepared: &mut [u64])
    requires { length prepared.old ≡ length (N.numbers values.now) }
    ensures { prepared.new ≡ patterns (resets (N.numbers values.now)) }
{
    correct::<CorrectedAgain, N>(values, prepared);
}

// Each value with the counter's resets added back, each restart once.
pub fn remove_counter_resets_once<N: Numbers>(values: &N, prepared: &mut [u64])
    requires { length prepared.old ≡ length (N.numbers values.now) }
    ensures { prepared.new ≡ patterns (resets_once (N.numbers values.now)) }
{
    correct::<CorrectedOnce, N>(values, prepared);
}

// Each value's step to the next; the last step twice.
pub fn delta_values<N: Numbers>(values: &N, prepared: &mut [u64])
    requires { length prepared.old ≡ length (N.numbers values.now) }
    ensures { prepared.new ≡ patterns (deltas (N.numbers values.now)) }
{
    if values.count() == 0 {
        return;
    }
    let mut prev_delta = 0.0;
    let mut prev_value = values.at(0);
    let last = values.count() - 1;
    for j in 0..last {
        let v = values.at(j + 1);
        prev_delta = v - prev_value;
        prepared[j] = ieee::number_bits(prev_delta);
        prev_value = v;
    }
    prepared[last] = ieee::number_bits(prev_delta);
}

impl Slope {
    // The slope to the value v at ts. A time that is not later leaves the slope as it is.
    fn next(self, v: f64, ts: i64) -> Slope
        requires { Within time_limit self.ts × Within time_limit ts }
        ensures { result ≡ sloped self v ts }
    {
        if self.ts < ts {
            Slope {
                deriv: (v - self.value) / ieee::seconds(ts - self.ts),
                value: v,
                ts,
            }
        } else {
            self
        }
    }
}

// Each value's slope to the next, per second; the last slope twice.
pub fn deriv_values<N: Numbers>(values: &N, timestamps: &[i64], prepared: &mut [u64])
    requires { (length timestamps.now ≡ length (N.numbers values.now)) × (length prepared.old ≡ length (N.numbers values.now)) × (leading time_inside timestamps.now ≡ length timestamps.now) }
    ensures { prepared.new ≡ patterns (derivs timestamps.now (N.numbers values.now)) }
{
    if values.count() == 0 {
        return;
    }
    let mut slope = Slope {
        deriv: 0.0,
        value: values.at(0),
        ts: timestamps[0],
    };
    let last = values.count() - 1;
    for j in 0..last {
        slope = slope.next(values.at(j + 1), timestamps[j + 1]);
        prepared[j] = ieee::bits_of(slope.deriv);
    }
    prepared[last] = ieee::bits_of(slope.deriv);
}

fn whole_seconds(t: i64) -> f64
    ensures { result ≡ whole_seconds t }
{
    ieee::of_difference(t / 1000)
}

// The interval of each reading from the one before, in whole seconds; the first interval twice, and NaN for a lone reading.
pub fn calc_sample_intervals_pre_fn(timestamps: &[i64], prepared: &mut [u64])
    requires { length prepared.old ≡ length timestamps.now }
    ensures { prepared.new ≡ patterns (intervals timestamps.now) }
{
    let mut prev = ieee::nan();
    for i in 0..timestamps.len() {
        let secs = whole_seconds(timestamps[i]);
        prepared[i] = ieee::bits_of(secs - prev);
        prev = secs;
    }
    if 1 < prepared.len() {
        prepared[0] = prepared[1];
    }
}

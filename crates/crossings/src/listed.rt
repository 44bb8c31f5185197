// The crossings of a limit. They are counted before the first is written, since a slice that is too short must stay as it was.

ghost use Rattle.std.specs.Prelude.{◌≡◌, ◌<◌, length, get_or};
ghost use Rattle.series.specs.Answers.{outcome, reply};
ghost use Rattle.crossings.specs.Crossings.{below, crosses, crossing_indexes, crossings_of};

use series::{FiniteValues, Refusal, Series, check_series};

// The values of an accepted series, beside a limit.
#[derive(Clone, Copy)]
struct Sides<'a> {
    values: FiniteValues<'a>,
    limit: f64,
}

impl Sides<'_> {
    // Whether the value at i is below the limit.
    fn is_below(&self, i: usize) -> bool
        requires { i < length self.now.values.slice.now }
        ensures { result ≡ below self.now.limit (get_or self.now.values.slice.now i 0) }
    {
        self.values.number_at(i) < self.limit
    }

    // Whether the value at i is on the other side of the limit from the one before.
    fn is_crossing(&self, i: usize) -> bool
        requires { (0 < i) × (i < length self.now.values.slice.now) }
        ensures { result ≡ crosses self.now.limit self.now.values.slice.now i }
    {
        self.is_below(i - 1) != self.is_below(i)
    }

    // How many values are on the other side of the limit from the one before.
    fn count(&self) -> usize
        ensures { result ≡ length (crossing_indexes self.now.limit self.now.values.slice.now) }
    {
        // `(1..n).filter(..).count()` jumps at each crossing, and took twice as long where they come at random.
        let mut n = 0;
        for i in 1..self.values.slice.len() {
            if self.is_crossing(i) {
                n += 1;
            }
        }
        n
    }

    // Writes the crossings' indexes to a slice of their number. An index that is no crossing's is written over by the next one's.
    fn list(&self, indexes: &mut [u64])
        requires { length indexes.old ≡ length (crossing_indexes self.now.limit self.now.values.slice.now) }
        ensures { indexes.new ≡ crossing_indexes self.now.limit self.now.values.slice.now }
    {
        let mut k = 0;
        for i in 1..self.values.slice.len() {
            if k == indexes.len() {
                return;
            }
            indexes[k] = i as u64;
            if self.is_crossing(i) {
                k += 1;
            }
        }
    }
}

// Writes the index of each reading whose value is on the other side of the limit from the one before, in order, to the first entries of
// indexes, and counts them; or refuses by rows 1 to 5, 15 and 16 and writes nothing.
pub fn crossings(series: &Series, limit: f64, indexes: &mut [u64]) -> Result<u64, Refusal>
    ensures { outcome (reply result) indexes.new ≡ crossings_of series.now.times series.now.values limit indexes.old }
{
    check_series(series)?;
    if !limit.is_finite() {
        return Err(Refusal::LimitNotFinite);
    }
    let sides = Sides {
        values: FiniteValues {
            slice: series.values,
        },
        limit,
    };
    let n = sides.count();
    if indexes.len() < n {
        return Err(Refusal::IndexesShort);
    }
    sides.list(&mut indexes[..n]);
    Ok(n as u64)
}

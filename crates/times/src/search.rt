// Where the times after an output time begin: the Rust's hinted search.

ghost use Rattle.std.specs.Prelude.{◌≡◌, ◌≤◌, ◌<◌, length};
ghost use Rattle.times.specs.Later.{NotFalling, first_after};
ghost use Rattle.times.specs.Search.{Tells};

// Times none of which is below the one before it: what is searched.
#[derive(Clone, Copy)]
pub struct Times<'a> {
    pub slice: &'a [i64],
    ghost not_falling: { NotFalling slice.now },
}

// From the front on, one time after the other.
fn scan(timestamps: &[i64], t: i64) -> usize
    ensures { result ≡ first_after timestamps.now t }
{
    timestamps
        .iter()
        .position(|ts| *ts > t)
        .unwrap_or(timestamps.len())
}

impl<'a> Times<'a> {
    // Whether the time at i is after t, which bounds the answer from above or from below.
    fn is_after(&self, t: i64, i: usize) -> bool
        requires { i < length self.now.slice.now }
        ensures { Tells self.now.slice.now t i result }
    {
        self.slice[i] > t
    }

    // Two before the hint, or 0 where that is too late.
    fn hinted_start(&self, t: i64, n_hint: usize) -> usize
        requires { 0 < length self.now.slice.now }
        ensures { result ≤ first_after self.now.slice.now t }
    {
        let i = n_hint.saturating_sub(2).min(self.slice.len() - 1);
        if self.is_after(t, i) { 0 } else { i }
    }

    // Two past the hint, or the length where that is too early.
    fn hinted_end(&self, t: i64, n_hint: usize) -> usize
        ensures { (first_after self.now.slice.now t ≤ result) × (result ≤ length self.now.slice.now) }
    {
        let count = self.slice.len();
        if count.saturating_sub(n_hint) <= 2 {
            return count;
        }
        let i = n_hint + 2;
        if self.is_after(t, i) { i } else { count }
    }

    // Half of what is left at each turn.
    // `partition_point` took 1.5 times as long: it has no branch to predict, and the answer is mostly near the front.
    fn binary_search(&self, t: i64) -> usize
        ensures { result ≡ first_after self.now.slice.now t }
    {
        let mut low = 0;
        let mut high = self.slice.len();
        while low < high {
            let mid = low + (high - low) / 2;
            if self.is_after(t, mid) {
                high = mid;
            } else {
                low = mid + 1;
            }
        }
        low
    }

    // The first index with a time after seek_timestamp, or the length where there is none, whatever the hint.
    pub fn seek_first_timestamp_idx_after(&self, seek_timestamp: i64, n_hint: usize) -> usize
        ensures { result ≡ first_after self.now.slice.now seek_timestamp }
    {
        if self.slice.is_empty() || self.is_after(seek_timestamp, 0) {
            return 0;
        }
        let start_idx = self.hinted_start(seek_timestamp, n_hint);
        let end_idx = self.hinted_end(seek_timestamp, n_hint);
        let between = Times {
            slice: &self.slice[start_idx..end_idx],
        };
        if between.slice.len() < 16 {
            start_idx + scan(between.slice, seek_timestamp)
        } else {
            start_idx + between.binary_search(seek_timestamp)
        }
    }
}

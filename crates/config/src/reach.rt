// How far back a predecessor may lie, and how long a window is, from the estimated interval between readings and the settings.

ghost use Rattle.std.specs.Prelude.{◌≡◌, ◌<◌, ◌^◌};
ghost use Rattle.config.specs.Reach.{reach_of, capped_by, bounded_reach, raised_step, window_of};

// The reach of an estimate. A short interval is raised more, which hides gaps where readings come unevenly. A part of a long one is what a shift
// leaves: a division is dear where many series are settled, and none stands in the reach. A match over ranges would name each bound twice.
pub fn get_max_prev_interval(scrape_interval: u64) -> u64
    requires { scrape_interval < 2 ^ 63 }
    ensures { result ≡ reach_of scrape_interval }
{
    if scrape_interval <= 2_000 {
        return scrape_interval * 5;
    }
    if scrape_interval <= 4_000 {
        return scrape_interval * 3;
    }
    if scrape_interval <= 8_000 {
        return scrape_interval * 2;
    }
    if scrape_interval <= 16_000 {
        return scrape_interval + (scrape_interval >> 1);
    }
    if scrape_interval <= 32_000 {
        return scrape_interval + (scrape_interval >> 2);
    }
    scrape_interval + (scrape_interval >> 3)
}

// n, at most a limit that is above 0.
fn capped(limit: u64, n: u64) -> u64
    ensures { result ≡ capped_by limit n }
{
    if limit > 0 { n.min(limit) } else { n }
}

// The settings that a window and a reach go by. No length is negative, and a window of 0 stands for the step.
#[derive(Clone, Copy)]
pub struct WindowSettings {
    pub window: u64,
    pub step: u64,
    pub may_adjust_window: bool,
    pub is_default_rollup: bool,
    pub lookback_delta: u64,
    pub min_staleness_interval: u64,
}

impl WindowSettings {
    // The reach under the settings: capped by a positive lookback delta, then raised to the staleness interval.
    #[tactic(auto, unfolding(crate::specs::Reach::bounded_reach))]
    pub fn bounded_reach(self, max_prev_interval: u64) -> u64
        ensures { result ≡ bounded_reach self.lookback_delta self.min_staleness_interval max_prev_interval }
    {
        capped(self.lookback_delta, max_prev_interval).max(self.min_staleness_interval)
    }

    // The step, raised to the reach if adjusting is on.
    fn raised_step(self, reach: u64) -> u64
        ensures { result ≡ raised_step self.step self.may_adjust_window reach }
    {
        if self.may_adjust_window {
            self.step.max(reach)
        } else {
            self.step
        }
    }

    // The window under the settings: one above 0 is kept as given.
    #[tactic(auto, unfolding(crate::specs::Reach::window_of))]
    pub fn adjusted_window(self, reach: u64) -> u64
        ensures { result ≡ window_of self.window self.step self.may_adjust_window self.is_default_rollup self.lookback_delta reach }
    {
        if self.window > 0 {
            return self.window;
        }
        let raised = self.raised_step(reach);
        if self.is_default_rollup {
            capped(self.lookback_delta, raised)
        } else {
            raised
        }
    }
}

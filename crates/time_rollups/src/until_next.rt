// The wait for the next reading. The Rust has no such rollup.

ghost use Rattle.std.specs.Prelude.{◌≡◌};
ghost use Rattle.std.specs.Option.{ForSome};
ghost use Rattle.window.specs.Types.{InRange};
ghost use Rattle.time_rollups.specs.UntilNext.{until_next_of};

use ieee::nan;
use window::types::{RollupFuncArg, seconds_between};

// The seconds from the output time to the next reading, NaN where there is none.
#[tactic(auto, unfolding(crate::specs::UntilNext::until_next_of))]
pub fn rollup_until_next(rfa: RollupFuncArg) -> f64
    requires { InRange rfa.curr_timestamp × ForSome rfa.next_timestamp InRange }
    ensures { result ≡ until_next_of rfa }
{
    match rfa.next_timestamp {
        Some(t) => seconds_between(rfa.curr_timestamp, t),
        None => nan(),
    }
}

// The rollups that read times: those of the window, and that of the next reading.
#![tactic(auto)]

pub mod candlestick;
pub mod deriv;
pub mod integrate;
pub mod ranged;
pub mod rollup_fns;
pub mod until_next;

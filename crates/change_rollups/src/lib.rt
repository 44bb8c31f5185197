// The rollups that answer how a window's values change, from the predecessor or from one value to the next.
#![tactic(auto)]

pub mod delta;
pub mod rollup_fns;

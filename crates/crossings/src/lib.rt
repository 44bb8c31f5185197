// Readings picked out of a series: those where the values cross a limit, and the one nearest to a time.
#![tactic(auto)]

mod listed;
mod nearer;

pub use listed::crossings;
pub use nearer::nearest;

// The rollups that answer from a window's values alone: their sum, their extremes, their order, their spread, their trend.
#![tactic(auto)]

pub mod holt_winters;
pub mod quantiles;
pub mod rollup_fns;

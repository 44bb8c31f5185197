// From the port of common/math.rs: the variance and the mode of a window's values, which come as
// patterns. Its quantiles and its line are the crates `quantile` and `regression`.
#![tactic(auto)]

pub mod deviation;
pub mod mode;

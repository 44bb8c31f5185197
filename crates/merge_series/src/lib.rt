// One series from two logs of the same readings. The two stay two parameters: what is said of them is said of each by itself.
#![tactic(auto)]

mod call;
mod joined;
mod place;
mod written;

pub use call::merge;

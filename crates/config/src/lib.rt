// Settling: from the times of a series and a call's settings to its window and its reach.
#![tactic(auto)]

pub mod estimate;
pub mod reach;
pub mod settle;

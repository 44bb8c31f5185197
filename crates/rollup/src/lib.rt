// The 50 rollups under one choice: each takes the record of one output time, with the readings of its window beside it, and
// answers one figure.
#![tactic(auto)]

pub mod choice;
pub mod handler;

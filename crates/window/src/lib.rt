// The window of one output time: the record that every rollup is handed, with the readings beside it.
// Values are the 64 bits of each binary64, times are milliseconds.
#![tactic(auto)]

pub mod types;

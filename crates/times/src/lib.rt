// Milliseconds, the grid of output times, and the search for a time. The laws on times that the layers above cite are in specs/ and proofs/.
#![tactic(auto)]

pub mod grid;
pub mod search;

// How far from 0 a time, and how long a length of time, may be: 2^50 milliseconds.
pub const TIME_LIMIT: i64 = 0x4_0000_0000_0000;

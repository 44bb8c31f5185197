// The exported C functions, declared in include/harzoulin.h: each is the function of its name in `harzoulin`, with its clauses.
#![tactic(auto)]

pub mod merged;
pub mod prepared;
pub mod readings;
pub mod runs;
pub mod settle;

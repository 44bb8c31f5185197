// A series with staleness marks, as run and settled run take it: rows 1 to 5 of theirs, and what remains of it without the marks.
#![tactic(auto)]

mod checks;
mod unmarked;

pub use checks::{MarkedSeries, check_marked};
pub use unmarked::take_out;

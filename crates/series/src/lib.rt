// A series of readings: where it is refused. The refusals of every call, and how a call answers, stand here too.
#![tactic(auto)]

mod checks;
mod copies;
mod order;
mod refusal;
mod slices;
mod values;

pub use checks::{MAX_READINGS, check_inside, check_rising, check_series, check_times, is_inside};
pub use copies::copy;
pub use refusal::Refusal;
pub use slices::{AcceptedSeries, AcceptedTimes, Series};
pub use values::{FiniteNumbers, FiniteValues, Numbers};

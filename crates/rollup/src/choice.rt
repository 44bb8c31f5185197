// A rollup by its number: docs/ROLLUPS.md, from 0 on. 45 to 47 take parameters, the first of the
// two where they take one.

ghost use Rattle.std.specs.Prelude.{◌≡◌};
ghost use Rattle.rollup.specs.Choice.{rollup_of};

use crate::handler::RollupHandler;

// The rollup with a number, or none where the number names none.
// No `TryFrom<u32>`: with some numbers go parameters, which stand beside the number.
pub fn rollup_of(number: u32, first: f64, second: f64) -> Option<RollupHandler>
    ensures { result ≡ rollup_of number first second }
{
    match number {
        0 => Some(RollupHandler::Avg),
        1 => Some(RollupHandler::Min),
        2 => Some(RollupHandler::Max),
        3 => Some(RollupHandler::Mad),
        4 => Some(RollupHandler::Median),
        5 => Some(RollupHandler::Tmin),
        6 => Some(RollupHandler::Tmax),
        7 => Some(RollupHandler::Tfirst),
        8 => Some(RollupHandler::Tlast),
        9 => Some(RollupHandler::TlastChange),
        10 => Some(RollupHandler::Sum),
        11 => Some(RollupHandler::Sum2),
        12 => Some(RollupHandler::RateOverSum),
        13 => Some(RollupHandler::Range),
        14 => Some(RollupHandler::Absent),
        15 => Some(RollupHandler::Present),
        16 => Some(RollupHandler::Count),
        17 => Some(RollupHandler::Stddev),
        18 => Some(RollupHandler::Stdvar),
        19 => Some(RollupHandler::IncreasePure),
        20 => Some(RollupHandler::Lifetime),
        21 => Some(RollupHandler::Lag),
        22 => Some(RollupHandler::ScrapeInterval),
        23 => Some(RollupHandler::Changes),
        24 => Some(RollupHandler::ChangesPrometheus),
        25 => Some(RollupHandler::Increases),
        26 => Some(RollupHandler::Resets),
        27 => Some(RollupHandler::ModeOverTime),
        28 => Some(RollupHandler::AscentOverTime),
        29 => Some(RollupHandler::DescentOverTime),
        30 => Some(RollupHandler::ZscoreOverTime),
        31 => Some(RollupHandler::First),
        32 => Some(RollupHandler::Default),
        33 => Some(RollupHandler::Distinct),
        34 => Some(RollupHandler::DerivSlow),
        35 => Some(RollupHandler::DerivFast),
        36 => Some(RollupHandler::Ideriv),
        37 => Some(RollupHandler::Delta),
        38 => Some(RollupHandler::DeltaPrometheus),
        39 => Some(RollupHandler::Idelta),
        40 => Some(RollupHandler::Open),
        41 => Some(RollupHandler::Close),
        42 => Some(RollupHandler::High),
        43 => Some(RollupHandler::Low),
        44 => Some(RollupHandler::Integrate),
        45 => Some(RollupHandler::Quantile(first)),
        46 => Some(RollupHandler::PredictLinear(first)),
        47 => Some(RollupHandler::HoltWinters(first, second)),
        48 => Some(RollupHandler::UntilNext),
        49 => Some(RollupHandler::StaleSamples),
        _ => None,
    }
}

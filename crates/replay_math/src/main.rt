// Replays the list `math`. A case's words are a function's number, the number of values, the values, the
// parameter where the function has one, and the Rust's answer.
#![tactic(auto)]

ghost use Rattle.std.specs.Prelude.{◌*◌, ◌≤◌, length};

use std::io;
use vectors::{Cursor, Unread};

// A function of a list of values.
#[derive(Clone, Copy, Debug, PartialEq, Eq)]
enum Function {
    Quantile,
    Median,
    Mad,
    Stdvar,
    Stddev,
    ModeNoNans,
    AreConstValues,
}

impl TryFrom<u64> for Function {
    type Error = Unread;

    fn try_from(number: u64) -> Result<Self, Unread> {
        match number {
            0 => Ok(Function::Quantile),
            1 => Ok(Function::Median),
            2 => Ok(Function::Mad),
            3 => Ok(Function::Stdvar),
            4 => Ok(Function::Stddev),
            5 => Ok(Function::ModeNoNans),
            7 => Ok(Function::AreConstValues),
            _ => Err(Unread::Malformed),
        }
    }
}

impl Function {
    // Whether a parameter stands after the values.
    fn has_parameter(self) -> bool {
        matches!(self, Function::Quantile | Function::ModeNoNans)
    }

    // Its answer, as it is stored. A match sees that each has its call.
    fn answer(self, values: &[u64], parameter: f64, work: &mut [f64]) -> u64
        requires { 2 * length values.now ≤ length work.old }
    {
        match self {
            Function::Quantile => ieee::bits_of(quantile::quantile(parameter, values, work)),
            Function::Median => ieee::bits_of(quantile::median(values, work)),
            Function::Mad => ieee::bits_of(quantile::mad(values, work)),
            Function::Stdvar => ieee::bits_of(math::deviation::stdvar(values)),
            Function::Stddev => ieee::bits_of(math::deviation::stddev(values)),
            Function::ModeNoNans => {
                ieee::bits_of(math::mode::mode_no_nans(parameter, values, work))
            }
            Function::AreConstValues => replay::flag(regression::are_const_values(values)),
        }
    }
}

// Whether the next case has the stored answer. A number that names no function counts as a difference.
fn case(words: &mut Cursor) -> Result<bool, Unread> {
    let function = Function::try_from(words.word()?).ok();
    let n = words.count()?;
    let values = words.words(n)?;
    let parameter = if function.is_some_and(Function::has_parameter) {
        ieee::value_of(words.word()?)
    } else {
        0.0
    };
    let stored = words.word()?;
    let Some(function) = function else {
        return Ok(false);
    };
    let mut work = [0.0; 2 * vectors::MOST];
    Ok(function.answer(&values, parameter, &mut work) == stored)
}

fn main(rt: HostRuntime) -> io::Result<()> {
    replay::replay(&rt, case)?;
    Ok(())
}

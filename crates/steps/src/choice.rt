// A preparing step by its number.

ghost use Rattle.std.specs.Prelude.{◌≡◌};
ghost use Rattle.steps.specs.Choice.{step_of};

use crate::PreFunction;

// The step with a number, where one has it. C hands a step in as its number; no `TryFrom`, since a number that names no step is no error here.
pub fn step_of(pre: u32) -> Option<PreFunction>
    ensures { result ≡ step_of pre }
{
    match pre {
        0 => Some(PreFunction::None),
        1 => Some(PreFunction::Resets),
        2 => Some(PreFunction::Delta),
        3 => Some(PreFunction::Deriv),
        4 => Some(PreFunction::Intervals),
        5 => Some(PreFunction::ResetsOnce),
        _ => None,
    }
}

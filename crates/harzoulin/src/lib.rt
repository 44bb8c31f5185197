// The functions that C calls, over numbers and slices; `harzoulin_c` exports them, and include/harzoulin.h declares them.
// Each returns the number of its refusal (docs/REFUSALS.md), 0 where the call was accepted, and sets *index, to 0 where there is none.
#![tactic(auto)]

pub mod merged;
pub mod prepared;
pub mod readings;
pub mod runs;
pub mod settle;

ghost use Rattle.std.proofs.Math.Option.{get_or};
ghost use Rattle.std.specs.Prelude.{◌≡◌};
ghost use Rattle.series.specs.Answers.{reply};
ghost use Rattle.series.specs.Refusals.{number_and_index};

use series::Refusal;

// A refusal's number, with its index behind the pointer.
fn refuse(refusal: Refusal, index: &mut u64) -> u64
    ensures { (result ≡ (number_and_index refusal).0) × (index.new ≡ (number_and_index refusal).1) }
{
    *index = refusal.index();
    refusal.number()
}

// An answer's number, with the index and, on acceptance only, the count behind the pointers.
fn answered(answer: Result<u64, Refusal>, count: &mut u64, index: &mut u64) -> u64
    ensures number { result ≡ (reply answer).number }
    ensures index { index.new ≡ (reply answer).index }
    ensures count { count.new ≡ get_or (reply answer).values count.old }
{
    match answer {
        Err(r) => refuse(r, index),
        Ok(n) => {
            *count = n;
            *index = 0;
            0
        }
    }
}

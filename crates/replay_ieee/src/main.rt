// Replays the list `ieee`: one operation of binary64 a case. Its words are the operation's number, two
// operands and the Rust's answer.
#![tactic(auto)]

use std::io;
use vectors::{Cursor, Unread};

// An operation, or a test, of binary64.
#[derive(Clone, Copy, Debug, PartialEq, Eq)]
enum Operation {
    Sqrt,
    Floor,
    Abs,
    TotalLt,
    ValueOf,
    ToUsize,
    ToI64,
    OfCount,
    OfDifference,
    Seconds,
    IsNan,
    IsFinite,
}

impl TryFrom<u64> for Operation {
    type Error = Unread;

    fn try_from(number: u64) -> Result<Self, Unread> {
        match number {
            0 => Ok(Operation::Sqrt),
            1 => Ok(Operation::Floor),
            2 => Ok(Operation::Abs),
            3 => Ok(Operation::TotalLt),
            4 => Ok(Operation::ValueOf),
            5 => Ok(Operation::ToUsize),
            6 => Ok(Operation::ToI64),
            7 => Ok(Operation::OfCount),
            8 => Ok(Operation::OfDifference),
            9 => Ok(Operation::Seconds),
            10 => Ok(Operation::IsNan),
            11 => Ok(Operation::IsFinite),
            _ => Err(Unread::Malformed),
        }
    }
}

impl Operation {
    // Its answer, as it is stored. A match sees that each operation has its function.
    fn answer(self, a: u64, b: u64) -> u64 {
        let x = ieee::value_of(a);
        match self {
            Operation::Sqrt => ieee::bits_of(root::sqrt(x)),
            Operation::Floor => ieee::bits_of(ieee::floor(x)),
            Operation::Abs => ieee::bits_of(ieee::abs(x)),
            Operation::TotalLt => replay::flag(ieee::total_lt(x, ieee::value_of(b))),
            Operation::ValueOf => ieee::bits_of(x),
            Operation::ToUsize => ieee::to_usize(x) as u64,
            Operation::ToI64 => ieee::to_i64(x).cast_unsigned(),
            Operation::OfCount => ieee::bits_of(ieee::of_count(a as usize)),
            Operation::OfDifference => ieee::bits_of(ieee::of_difference(vectors::signed(a))),
            Operation::Seconds => ieee::bits_of(ieee::seconds(vectors::signed(a))),
            Operation::IsNan => replay::flag(ieee::is_nan(x)),
            Operation::IsFinite => replay::flag(ieee::is_finite(a)),
        }
    }
}

// Whether the next case has the stored answer. A number that names no operation counts as a difference.
fn case(words: &mut Cursor) -> Result<bool, Unread> {
    let [number, a, b, stored] = words.array::<4>()?;
    let operation = Operation::try_from(number);
    Ok(operation.is_ok_and(|operation| operation.answer(a, b) == stored))
}

fn main(rt: HostRuntime) -> io::Result<()> {
    replay::replay(&rt, case)?;
    Ok(())
}

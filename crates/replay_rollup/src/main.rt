// Replays the list `rollup`. A case's words are the two parameters, the window record (previous value and
// time, the values beside the window, whether a reading follows and its time, 0 where none does, output time,
// window), the number of readings, their times, their values, a word that says where the port departs from the
// Rust, and the answers of the 50 rollups.
#![tactic(auto)]

ghost use Rattle.std.specs.Prelude.{◌≡◌, ◌≤◌, leb, nat_abs, true, length};
ghost use Rattle.std.specs.Option.{ForSome};
ghost use Rattle.window.specs.Types.{InRange, record_limit};
ghost use Rattle.rollup.specs.Eval.{Ready};

use series::Refusal;
use std::io;
use vectors::{Cursor, Unread};
use window::types::RollupFuncArg;

// The number of rollups.
const ROLLUPS: u32 = 50;

// How far from 0 a time may lie that a rollup is handed: 2^54.
const RANGE: u64 = 0x40_0000_0000_0000;

// Whether a time of the record is one that a rollup may be handed.
fn in_range(t: i64) -> bool
    ensures test { result ≡ leb (nat_abs t) record_limit }
    ensures in_range { result ≡ true → InRange t }
{
    t.unsigned_abs() <= RANGE
}

// Whether the times of a record, and its window, are in range.
fn all_in_range(rfa: RollupFuncArg) -> bool
    ensures curr { result ≡ true → InRange rfa.curr_timestamp }
    ensures prev { result ≡ true → InRange rfa.prev_timestamp }
    ensures next { result ≡ true → ForSome rfa.next_timestamp InRange }
    ensures window { result ≡ true → InRange rfa.window }
{
    in_range(rfa.curr_timestamp)
        && in_range(rfa.prev_timestamp)
        && rfa.next_timestamp.is_none_or(in_range)
        && in_range(rfa.window)
}

// The next word, as a binary64.
fn value(words: &mut Cursor) -> Result<f64, Unread> {
    Ok(ieee::value_of(words.word()?))
}

// The time that the next two words are: whether there is one, and the time, 0 where there is none. A time that is not in range is kept in
// either case, so that the case counts as a difference.
fn time_if_any(words: &mut Cursor) -> Result<Option<i64>, Unread> {
    let any = words.number()? != 0;
    let time = words.number()?;
    Ok((any || !in_range(time)).then_some(time))
}

// The record that the next eight words are.
fn record(words: &mut Cursor) -> Result<RollupFuncArg, Unread> {
    Ok(RollupFuncArg {
        prev_value: value(words)?,
        prev_timestamp: words.number()?,
        real_prev_value: value(words)?,
        real_next_value: value(words)?,
        next_timestamp: time_if_any(words)?,
        curr_timestamp: words.number()?,
        window: words.number()?,
    })
}

// A case of at most 64 readings: the parameters, the record, the readings, and the answers of the rollups.
#[derive(Drop)]
struct Stored {
    first: f64,
    second: f64,
    rfa: RollupFuncArg,
    timestamps: Vec<i64>,
    values: Vec<u64>,
    answers: [u64; ROLLUPS as usize],
    ghost paired: { length timestamps.items ≡ length values.items },
    ghost few: { length values.items ≤ 64 },
}

impl Stored {
    // The next case.
    fn read(words: &mut Cursor) -> Result<Stored, Unread> {
        let first = value(words)?;
        let second = value(words)?;
        let rfa = record(words)?;
        let n = words.count()?;
        let timestamps = words.times(n)?;
        let values = words.words(n)?;
        // It says for which rollups the stored answer is the port's own and not the Rust's.
        let _departs = words.word()?;
        let answers = words.array()?;
        Ok(Stored {
            first,
            second,
            rfa,
            timestamps,
            values,
            answers,
        })
    }

    // The answer of the rollup with a number, and 0 where there is none.
    fn answer(&self, number: u32) -> u64
        requires { Ready self.now.rfa self.now.values.items self.now.timestamps.items 128 }
    {
        let mut work = [0.0; 2 * vectors::MOST];
        match rollup::choice::rollup_of(number, self.first, self.second) {
            Some(handler) => rollup::handler::eval(
                handler,
                self.rfa,
                &self.values,
                &self.timestamps,
                &mut work,
            ),
            None => 0,
        }
    }

    // Whether the answers of all rollups are the stored ones.
    fn same_answers(&self) -> bool
        requires { Ready self.now.rfa self.now.values.items self.now.timestamps.items 128 }
    {
        (0..ROLLUPS)
            .zip(&self.answers)
            .all(|(number, answer)| self.answer(number) == *answer)
    }

    // The same, of readings that the table accepts. A time of the record that is not in range counts as a difference.
    fn same(&self) -> Result<bool, Refusal> {
        series::check_times(&self.timestamps)?;
        if !all_in_range(self.rfa) {
            return Ok(false);
        }
        Ok(self.same_answers())
    }
}

// Whether the next case has the stored answers.
fn case(words: &mut Cursor) -> Result<bool, Unread> {
    Ok(Stored::read(words)?.same() == Ok(true))
}

fn main(rt: HostRuntime) -> io::Result<()> {
    replay::replay(&rt, case)?;
    Ok(())
}

// Replays the list `run`. A case's words are the preparing step, the two parameters, the number of readings,
// their times, their values, ten settings, the settled window, the reach, the count and the number of output times
// of the runs on the readings that are no staleness marks, the same four of the runs that see the marks, a word that
// says where the port departs from the Rust, and of each of the 50 rollups as many answers as its run has output
// times. Where a run is refused there are no output times, and the refusal's number and index stand for window and
// reach: the runs that see marks are refused after a step, and are then lent as many places for answers as the others,
// which must stay as they are. Where a run is accepted, the times that it goes by must settle to the stored window and
// reach and stand at the front of the slice lent for them, and the settled run with the stored window and reach must
// give the same count and answers.
#![tactic(auto)]

use config::settle::Settlement;
use rollup::handler::RollupHandler;
use series::{Refusal, Series};
use settings::{RollupConfig, SettledConfig};
use std::io;
use steps::PreFunction;
use vectors::{Cursor, Unread};

// The number of rollups.
const ROLLUPS: u32 = 50;

// The rollups that see staleness marks.
const SEE_MARKS: [u32; 2] = [32, 49];

// What each place for a remaining time holds before a call. No reading has it.
const NO_TIME: i64 = i64::MAX;

// What is stored of a call that is accepted, beside its answers: the count, and what the settings settle to.
#[derive(Clone, Copy)]
struct Counted {
    count: u64,
    settled: Settlement,
}

// What is stored of a refusal.
#[derive(Clone, Copy, Debug, PartialEq, Eq)]
struct Refused {
    number: u64,
    index: u64,
}

// What is stored of a call's outcome.
type Outcome = Result<Counted, Refused>;

// Whether a rollup sees staleness marks.
fn sees_marks(number: u32) -> bool {
    SEE_MARKS.contains(&number)
}

// The times of the readings that are no staleness marks.
fn times_without_marks(timestamps: &Vec<i64>, values: &Vec<u64>) -> Result<Vec<i64>, Unread> {
    let mut times = Vec::new(*timestamps.allocator());
    for (time, value) in timestamps.iter().zip(values) {
        if !ieee::is_stale_nan(*value) {
            times.push(*time)?;
        }
    }
    Ok(times)
}

// The outcome that is stored by four numbers of a case.
fn outcome_of(window: u64, reach: u64, count: u64, points: usize) -> Outcome {
    if points == 0 {
        return Err(Refused {
            number: window,
            index: reach,
        });
    }
    let settled = Settlement {
        window: vectors::signed(window),
        reach: vectors::signed(reach),
        points: points as u64,
    };
    Ok(Counted { count, settled })
}

// The outcome that the next four words are.
fn read_outcome(words: &mut Cursor) -> Result<Outcome, Unread> {
    let [window, reach, count] = words.array::<3>()?;
    let points = words.count()?;
    Ok(outcome_of(window, reach, count, points))
}

// The number of output times of an accepted call, 0 of a refused one.
fn points(outcome: Outcome) -> usize {
    match outcome {
        Ok(counted) => counted.settled.points as usize,
        Err(_) => 0,
    }
}

// What the places for answers hold after a call: where it is accepted the answers that the next words are, and where it
// is refused what they held before.
fn read_answers(words: &mut Cursor, outcome: Outcome, places: usize) -> Result<Vec<u64>, Unread> {
    match outcome {
        Ok(counted) => words.words(counted.settled.points as usize),
        Err(_) => Ok(vec![in words.alloc; 0; places]?),
    }
}

// The same for each rollup. All calls of a case are lent as many places.
fn read_all_answers(
    words: &mut Cursor,
    outcome: Outcome,
    outcome_with_marks: Outcome,
) -> Result<Vec<Vec<u64>>, Unread> {
    let places = points(outcome);
    let mut all = Vec::with_capacity(words.alloc, ROLLUPS as usize)?;
    for number in 0..ROLLUPS {
        let its_outcome = if sees_marks(number) {
            outcome_with_marks
        } else {
            outcome
        };
        all.push(read_answers(words, its_outcome, places)?)?;
    }
    Ok(all)
}

// What the places for answers hold before a call: where it is accepted none holds its answer yet, and where it is
// refused each holds what it has to hold after it.
fn lent(outcome: Outcome, stored: &Vec<u64>) -> Result<Vec<u64>, Unread> {
    match outcome {
        Ok(_) => Ok(vectors::others(stored, *stored.allocator())?),
        Err(_) => Ok(stored.clone()?),
    }
}

// What the runs of some rollups share: the times of the readings that they go by, and what is stored of the outcome.
#[derive(Clone, Copy)]
struct Runs<'a> {
    times: &'a Vec<i64>,
    outcome: Outcome,
}

// Whether the places for remaining times hold after a call of these runs what they have to: the times at the front, and
// where it is refused what they held before.
fn same_times(runs: Runs, remaining: &[i64]) -> bool {
    match runs.outcome {
        Ok(_) => remaining.starts_with(runs.times),
        Err(_) => remaining.iter().all(|time| *time == NO_TIME),
    }
}

// Whether a call gave the count or the refusal that is stored.
fn same_outcome(stored: Outcome, figures: Result<u64, Refusal>) -> bool {
    let given = figures.map_err(|refusal| Refused {
        number: refusal.number(),
        index: refusal.index(),
    });
    given == stored.map(|counted| counted.count)
}

// A case: the preparing step where its number has one, the rollups' parameters, the readings, the times of those that
// are no staleness marks, the settings, and what is stored of the calls: the outcome with the rollups that see no marks
// and with those that do, and for each rollup what the places for answers hold after a call.
#[derive(Drop)]
struct Stored {
    pre: Option<PreFunction>,
    first: f64,
    second: f64,
    timestamps: Vec<i64>,
    values: Vec<u64>,
    remaining: Vec<i64>,
    rc: RollupConfig,
    outcome: Outcome,
    outcome_with_marks: Outcome,
    answers: Vec<Vec<u64>>,
}

impl Stored {
    // The next case.
    fn read(words: &mut Cursor) -> Result<Stored, Unread> {
        // Of `and_then(steps::step_of)` the check finds no contract, since the module that `step_of` stands in is private.
        let pre = u32::try_from(words.word()?)
            .ok()
            .and_then(|number| steps::step_of(number));
        let first = ieee::value_of(words.word()?);
        let second = ieee::value_of(words.word()?);
        let n = words.count()?;
        let timestamps = words.times(n)?;
        let values = words.words(n)?;
        let remaining = times_without_marks(&timestamps, &values)?;
        let rc = replay_settings::settings(words)?;
        let outcome = read_outcome(words)?;
        let outcome_with_marks = read_outcome(words)?;
        // It says where the stored answer is the port's own and not the Rust's.
        let _departs = words.word()?;
        let answers = read_all_answers(words, outcome, outcome_with_marks)?;
        Ok(Stored {
            pre,
            first,
            second,
            timestamps,
            values,
            remaining,
            rc,
            outcome,
            outcome_with_marks,
            answers,
        })
    }

    // The runs with the rollups that see no marks.
    fn runs_without_marks(&self) -> Runs {
        Runs {
            times: &self.remaining,
            outcome: self.outcome,
        }
    }

    // The runs with the rollups that see marks.
    fn runs_with_marks(&self) -> Runs {
        Runs {
            times: &self.timestamps,
            outcome: self.outcome_with_marks,
        }
    }

    // The runs that the run with a numbered rollup is one of.
    fn runs_of(&self, number: u32) -> Runs {
        if sees_marks(number) {
            self.runs_with_marks()
        } else {
            self.runs_without_marks()
        }
    }

    // The settings, settled.
    fn settled_config(&self, settled: Settlement) -> SettledConfig {
        let rc = self.rc;
        SettledConfig {
            start: rc.start,
            end: rc.end,
            step: rc.step,
            window: settled.window,
            reach: settled.reach,
            samples_scanned_per_call: rc.samples_scanned_per_call,
        }
    }

    // Whether a call over the readings gives what is stored of these runs, with these answers. The call is handed the
    // slices that it writes: the answers, the prepared values, the remaining times and the work slice.
    fn same_call<F>(&self, runs: Runs, stored: &Vec<u64>, call: F) -> Result<bool, Unread>
    where
        F: Fn(&Series, &mut [u64], &mut [u64], &mut [i64], &mut [f64]) -> Result<u64, Refusal>,
        requires { F.IsAlwaysCallable call }
    {
        let alloc = *stored.allocator();
        let mut answers = lent(runs.outcome, stored)?;
        let mut prepared = vectors::others(&self.values, alloc)?;
        let mut remaining = vec![in alloc; NO_TIME; self.timestamps.len()]?;
        let mut work = [1.0; 2 * vectors::MOST];
        let series = Series {
            timestamps: &self.timestamps,
            values: &self.values,
        };
        let figures = call(
            &series,
            &mut answers,
            &mut prepared,
            &mut remaining,
            &mut work,
        );
        Ok(
            same_outcome(runs.outcome, figures)
                && answers == *stored
                && same_times(runs, &remaining),
        )
    }

    // Whether the run with a numbered rollup gives what is stored and, where it is accepted, the settled run too.
    fn same_rollup(
        &self,
        pre: PreFunction,
        number: u32,
        stored: &Vec<u64>,
    ) -> Result<bool, Unread> {
        let Some(handler) = rollup::choice::rollup_of(number, self.first, self.second) else {
            return Ok(false);
        };
        let runs = self.runs_of(number);
        let rc = self.rc;
        let same = self.same_call(runs, stored, |series, answers, prepared, remaining, work| {
            run::run(series, pre, handler, rc, answers, prepared, remaining, work)
        })?;
        if !same {
            return Ok(false);
        }
        let Ok(Counted { settled, .. }) = runs.outcome else {
            return Ok(true);
        };
        let sc = self.settled_config(settled);
        self.same_call(runs, stored, |series, answers, prepared, remaining, work| {
            run::settled_run(series, pre, handler, sc, answers, prepared, remaining, work)
        })
    }

    // Whether the settings and the times that these runs go by settle to what is stored.
    fn same_settled(&self, runs: Runs) -> bool {
        let Ok(Counted { settled, .. }) = runs.outcome else {
            return true;
        };
        replay_settings::same(settled, config::settle::settle(runs.times, self.rc))
    }

    // Whether all calls give what is stored. A number that has no step counts as a difference.
    fn same(&self) -> Result<bool, Unread> {
        let Some(pre) = self.pre else {
            return Ok(false);
        };
        if !self.same_settled(self.runs_without_marks())
            || !self.same_settled(self.runs_with_marks())
        {
            return Ok(false);
        }
        for (number, stored) in (0..ROLLUPS).zip(&self.answers) {
            if !self.same_rollup(pre, number, stored)? {
                return Ok(false);
            }
        }
        Ok(true)
    }
}

// Whether the next case has the stored answers.
fn case(words: &mut Cursor) -> Result<bool, Unread> {
    Stored::read(words)?.same()
}

fn main(rt: HostRuntime) -> io::Result<()> {
    replay::replay(&rt, case)?;
    Ok(())
}

// What an accepted call goes by: its output times, its window, its reach and its per-call number.

ghost use Rattle.std.specs.Prelude.{Ok, ◌≡◌};
ghost use Rattle.settings.specs.Rows.{settled_settings};
ghost use Rattle.settings.specs.Course.{settled_course};

use crate::SettledConfig;

#[derive(Clone, Copy)]
pub struct Course {
    pub start: i64,
    pub step: i64,
    pub points: u64,
    pub window: i64,
    pub reach: i64,
    pub samples_scanned_per_call: u64,
}

// The course of a settled run, which is given its window and its reach.
pub fn settled_course(sc: SettledConfig) -> Course
    requires { settled_settings sc ≡ Ok tt }
    ensures { result ≡ settled_course sc }
{
    Course {
        start: sc.start,
        step: sc.step,
        points: times::grid::points(sc.start, sc.end, sc.step),
        window: sc.window,
        reach: sc.reach,
        samples_scanned_per_call: sc.samples_scanned_per_call,
    }
}

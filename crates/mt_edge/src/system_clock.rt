//! The clock of this machine. It tells nothing.

ghost use Rattle.std.specs.Prelude.{◌≡◌, ◌/◌, None, IfOk, IfErr};
ghost use Rattle.std.specs.Time.{system_time_nanos};
ghost use Rattle.msg_ids.specs.Moments.{moment_of};

use crate::clock::Clock;
use msg_ids::Moment;
use std::io;
use std::time::{Clock as Time, SystemTime, UNIX_EPOCH};

/// The clock of this machine. A time that can't be read, or lies before 1970, is moment 0.
#[derive(Debug, Drop)]
pub struct SystemClock<R> {
    time: R,
}

impl<R: Time + Drop> SystemClock<R> {
    /// The clock.
    pub fn new(time: R) -> SystemClock<R> {
        SystemClock { time }
    }
}

impl<R: Time + Drop> Clock for SystemClock<R> {
    ghost given = { λ _. None };

    fn now(&mut self) -> Moment {
        moment_of(SystemTime::now(&self.time))
    }
}

/// The moment, by what std answered: the seconds since the begin of 1970.
fn moment_of(answer: io::Result<SystemTime>) -> Moment
    ensures time { IfOk answer (λ time. result ≡ moment_of (system_time_nanos time / 1000000000)) }
    ensures no_time { IfErr answer (λ _. result ≡ 0) }
{
    match answer {
        Ok(time) => match time.duration_since(UNIX_EPOCH) {
            Ok(since) => Moment::new(since.as_secs()),
            Err(_) => Moment::new(0),
        },
        Err(_) => Moment::new(0),
    }
}

//! The clock of the host.

ghost use Rattle.std.specs.Prelude.{◌≡◌, ◌<◌, ◌≤◌, ◌^◌};
ghost use Rattle.cat_io.specs.Clock.{CountsReading};

use cat_io::Clock;
use std::marker::Model;
use std::time::Clock as HostTime;

/// The greatest moment.
const LAST: u64 = (1 << 53) - 1;

/// The clock of the host in milliseconds, since a start of the host's own. It never goes back, whatever is set at the host: a
/// reading that the host refuses, or that lies before the last one, gives the last moment again.
#[derive(Drop)]
pub struct HostClock<T: HostTime + Drop> {
    host: T,
    moment: u64,
    readings: u64,
}

impl<T: HostTime + Drop> Model for HostClock<T> {
    ghost use Rattle.std.specs.Prelude.{◌<◌, ◌^◌};
    ghost use Rattle.cat_io.specs.Clock.{ClockState};

    ghost Value = { ClockState };

    ghost view = { λ c. record { moment = c.moment; readings = c.readings } };

    ghost invariant = { λ c. c.moment < 2 ^ 53 };
}

impl<T: HostTime + Drop> HostClock<T> {
    /// A clock over the host's that was never read. It takes no memory.
    pub fn new(host: T) -> HostClock<T>
        ensures { result ≡ record { moment = 0; readings = 0 } }
    {
        HostClock {
            host,
            moment: 0,
            readings: 0,
        }
    }
}

impl<T: HostTime + Drop> Clock for HostClock<T> {
    ghost moment = { λ c. c.moment };

    ghost readings = { λ c. c.readings };

    // It never goes back.
    ghost ticks = { λ old new. old.moment ≤ new.moment };

    fn now(&mut self) -> u64
        ensures moment { result ≡ self.new.moment }
        ensures bound { result < 2 ^ 53 }
        ensures counts { CountsReading self.old.readings self.new.readings }
        ensures ticks { self.old.moment ≤ self.new.moment }
    {
        if let Ok(elapsed) = self.host.monotonic() {
            let moment = elapsed.as_millis().min(u128::from(LAST)) as u64;
            self.moment = self.moment.max(moment);
        }
        self.readings = self.readings.saturating_add(1);
        self.moment
    }
}

//! Where moments come from.

ghost use Rattle.std.specs.Prelude.{◌≡◌, ℕ, ◌<◌, ◌^◌};
ghost use Rattle.cat_io.specs.Clock.{CountsReading};

use std::marker::Model;

/// A clock in milliseconds, seen by the moment that it gave last, before the first reading one of its own, by the count of its
/// readings, and by what a reading may do to it.
pub trait Clock {
    ghost moment: { Self → ℕ };

    ghost readings: { Self → ℕ };

    // A reading leads from the first clock to the second one.
    ghost ticks: { Self → Self → Type 0 };

    /// Reads the clock: one reading more is counted, and the moment is the one that is answered.
    fn now(&mut self) -> u64
        ensures moment { result ≡ moment self.new }
        ensures bound { result < 2 ^ 53 }
        ensures counts { CountsReading (readings self.old) (readings self.new) }
        ensures ticks { ticks self.old self.new };
}

/// A clock that stands at one moment until it is set to another.
#[derive(Drop)]
pub struct FixedClock {
    moment: u64,
    readings: u64,
}

impl Model for FixedClock {
    ghost use Rattle.std.specs.Prelude.{◌<◌, ◌^◌};
    ghost use Rattle.cat_io.specs.Clock.{ClockState};

    ghost Value = { ClockState };

    ghost view = { λ c. record { moment = c.moment; readings = c.readings } };

    ghost invariant = { λ c. c.moment < 2 ^ 53 };
}

impl FixedClock {
    /// A clock that stands at this moment and was never read. It takes no memory.
    pub fn at(now: u64) -> FixedClock
        requires { now < 2 ^ 53 }
        ensures { result ≡ record { moment = now; readings = 0 } }
    {
        FixedClock {
            moment: now,
            readings: 0,
        }
    }

    /// The clock stands at this moment from here on. No reading is counted.
    pub fn set(&mut self, now: u64)
        requires { now < 2 ^ 53 }
        ensures { self.new ≡ record self.old { moment = now } }
    {
        self.moment = now;
    }

    /// The moment at which it stands, which its next reading gives. No reading is counted.
    pub fn moment(&self) -> u64
        ensures moment { result ≡ self.now.moment }
        ensures bound { result < 2 ^ 53 }
    {
        self.moment
    }
}

impl Clock for FixedClock {
    ghost moment = { λ c. c.moment };

    ghost readings = { λ c. c.readings };

    ghost ticks = { λ old new. new.moment ≡ old.moment };

    fn now(&mut self) -> u64
        ensures moment { result ≡ self.new.moment }
        ensures bound { result < 2 ^ 53 }
        ensures counts { CountsReading self.old.readings self.new.readings }
        // It stands still.
        ensures ticks { self.new.moment ≡ self.old.moment }
    {
        self.readings = self.readings.saturating_add(1);
        self.moment
    }
}

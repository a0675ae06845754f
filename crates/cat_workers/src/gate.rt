//! The gate of a worker.
ghost use Rattle.cat_workers.specs.declared.gate.GateCall.{GateCall};
ghost use Rattle.cat_workers.specs.declared.gate.Go.{Go};

/// A call that a worker is about to make at its desk.
#[derive(Clone, Copy, Debug, Drop, PartialEq, Eq)]
pub enum GateCall {
    /// An order is taken.
    Take,
    /// The result of the order with this token is brought back.
    Finish(u64),
    /// A stitch order is taken.
    StitchTake,
    /// The document of the stitch order with this ticket is brought back.
    StitchPut(u64),
}

/// Whether a worker goes on.
#[derive(Clone, Copy, Debug, Drop, PartialEq, Eq)]
pub enum Go {
    On,
    Stop,
}

/// What a worker passes before each call at its desk, and what it asks where it was idle. It is seen by what it was told and what it
/// has said: a loop over any gate knows of a call or an answer only by the methods below.
pub trait Gate {
    // The gate was told of this call.
    ghost told: { Self → GateCall → Type 0 };

    // The gate has said this.
    ghost said: { Self → Go → Type 0 };

    /// Comes before each call.
    fn before(&self, call: GateCall)
        ensures { told self.now call };

    /// Comes after a round in which nothing was taken, a call was refused or memory lacked, and says whether the worker goes on.
    fn idle(&self) -> Go
        ensures { said self.now result };
}

//! How long connections may wait, and how much may stand with them.

/// For what a connection waits.
#[derive(Clone, Copy, PartialEq, Eq)]
pub(crate) enum Stage {
    /// For a message.
    Idle,
    /// For the rest of a head.
    Head,
    /// For more of a body.
    Body,
    /// For a reply to be taken.
    Reply,
    /// For its peer to close, after the last reply.
    Said,
}

/// How many milliseconds a connection may wait for a message.
const IDLE: u64 = 60_000;

/// How many milliseconds a head may take, from its first byte on.
const HEAD: u64 = 10_000;

/// How many milliseconds may pass before more of a body comes.
const BODY: u64 = 10_000;

/// How many milliseconds a reply may take.
const REPLY: u64 = 30_000;

/// How many milliseconds what comes after the last reply is thrown away.
const SAID: u64 = 5_000;

/// How many bytes may stand with all connections that wait.
pub(crate) const MOST_HELD: usize = 134_217_728;

/// How many milliseconds lie between two looks for connections that have waited too long.
pub(crate) const LOOK: u64 = 500;

/// How many milliseconds count at most between two looks of the doors.
pub(crate) const LONGEST: u64 = 1_000;

impl Stage {
    /// How many milliseconds a connection may wait for it.
    pub(crate) fn patience(self) -> u64 {
        match self {
            Stage::Idle => IDLE,
            Stage::Head => HEAD,
            Stage::Body => BODY,
            Stage::Reply => REPLY,
            Stage::Said => SAID,
        }
    }

    /// Each time that a connection waits for it counts anew, since something came or went in between.
    pub(crate) fn begins_anew(self) -> bool {
        match self {
            Stage::Idle | Stage::Body => true,
            Stage::Head | Stage::Reply | Stage::Said => false,
        }
    }

    /// A connection that waits for it may be given up for one that comes.
    pub(crate) fn gives_way(self) -> bool {
        match self {
            Stage::Idle | Stage::Said => true,
            Stage::Head | Stage::Body | Stage::Reply => false,
        }
    }
}

//! How many servers run.

use crate::helper::Helper;
use std::sync::Wait;
use std::sync::atomic::{AtomicU64, Ordering};
use std::time::Duration;

const LOW_BITS: u64 = 0xffff_ffff;

/// How many milliseconds a rest lasts at most.
const REST: u64 = 10;

/// How many servers haven't ended.
#[derive(Drop)]
pub struct Running {
    servers: AtomicU64,
}

impl Running {
    // As many as the list has.
    pub(crate) fn new<S, W>(helpers: &[Helper<S, W>]) -> Running {
        let mut servers = 0;
        for helper in helpers {
            if let Helper::Serves(_) = helper {
                servers += 1;
            }
        }
        Running {
            servers: AtomicU64::new(servers),
        }
    }

    // One of them has ended. Those that rest wake.
    pub(crate) fn end_one(&self) {
        self.servers.fetch_sub(1, Ordering::SeqCst);
        self.servers.wake_all();
    }

    /// Rests for ten milliseconds at most, or until a server ends. False says that no server runs; there is no rest then.
    pub fn rests<R: Wait>(&self, rt: &R) -> bool {
        let servers = self.servers.load(Ordering::SeqCst);
        if servers == 0 {
            return false;
        }
        let seen = (servers & LOW_BITS) as u32;
        self.servers
            .park_timeout(rt, seen, Duration::from_millis(REST));
        true
    }
}

//! How a worker waits that finds no open node.
use crossbeam_utils::Backoff;
use std::sync::Wait;
use std::sync::atomic::AtomicU64;
use std::time::Duration;

/// A sleep is longer than the one before by so many microseconds.
const LONGER: u64 = 50;

/// From this sleep on they are equally long.
const LONGEST: u32 = 40;

/// How long a worker has waited. It spins first, then yields the processor, and then sleeps, a little longer each time, so that many
/// idle workers leave the processors to those that have a node.
#[derive(Drop)]
pub struct Patience {
    backoff: Backoff,
    sleeps: u32,
}

impl Patience {
    /// The worker has not waited.
    pub fn new() -> Patience {
        Patience {
            backoff: Backoff::new(),
            sleeps: 0,
        }
    }

    /// The worker has found a node.
    pub fn reset(&mut self) {
        self.backoff.reset();
        self.sleeps = 0;
    }

    /// Waits for others to make progress.
    pub fn wait<R: Wait>(&mut self, rt: &R) {
        if !self.backoff.is_completed() {
            self.backoff.snooze();
            return;
        }
        if self.sleeps < LONGEST {
            self.sleeps += 1;
        }
        let time = Duration::from_micros(LONGER * u64::from(self.sleeps));
        // Nobody wakes it: it goes on when the time is over.
        AtomicU64::new(0).park_timeout(rt, 0, time);
    }
}

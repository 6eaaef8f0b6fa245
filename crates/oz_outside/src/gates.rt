//! Gates: places where workers are told of their nodes, and may be held up.
use std::hint::spin_loop;
use std::sync::atomic::{AtomicU64, Ordering};

/// What a worker calls round the solving of each node.
///
/// Workers are numbered as the search numbers them, and `nth` counts one worker's nodes from 1. A gate
/// changes no data and answers nothing: all that it can do is to take time.
pub trait Gate: Sync {
    /// The worker is about to solve its `nth` node.
    fn before(&self, worker: u32, nth: u64);

    /// The worker has solved its `nth` node.
    fn after(&self, worker: u32, nth: u64);
}

/// A gate that holds nobody up.
#[derive(Clone, Copy, Drop)]
pub struct OpenGate;

impl Gate for OpenGate {
    fn before(&self, _worker: u32, _nth: u64) {}

    fn after(&self, _worker: u32, _nth: u64) {}
}

/// A gate for tests, which holds one worker up until another one comes.
///
/// The first `before` that follows an `after` returns when another worker's `before` comes, or after
/// the stated number of turns of a loop. Every other call returns at once.
#[derive(Drop)]
pub struct HoldGate {
    turns: u64,
    stage: AtomicU64,
}

impl HoldGate {
    /// A gate that holds a worker up for at most this many turns.
    pub fn new(turns: u64) -> Self {
        HoldGate {
            turns,
            stage: AtomicU64::new(Stage::Fresh.word()),
        }
    }

    /// Whether another worker came while one was held up.
    pub fn met(&self) -> bool {
        self.stage.load(Ordering::SeqCst) == Stage::Met.word()
    }

    /// Goes on to a stage from the one with this word. Where the gate stands at another one, it stays
    /// there, and the `Err` has the other's word.
    fn step(&self, from: u64, to: Stage) -> Result<u64, u64> {
        self.stage
            .compare_exchange(from, to.word(), Ordering::SeqCst, Ordering::SeqCst)
    }

    /// Waits while the gate stands at the stage with this word, for at most the stated turns.
    fn wait(&self, held: u64) {
        for _ in 0..self.turns {
            if self.stage.load(Ordering::SeqCst) != held {
                return;
            }
            spin_loop();
        }
    }
}

impl Gate for HoldGate {
    fn before(&self, worker: u32, _nth: u64) {
        let held = Stage::Held(worker);
        match self.step(Stage::Armed.word(), held) {
            Ok(_) => {
                self.wait(held.word());
                let _ = self.step(held.word(), Stage::Over);
            }
            Err(now) => {
                let is_held = now >= Stage::Held(0).word();
                if is_held && now != held.word() {
                    let _ = self.step(now, Stage::Met);
                }
            }
        }
    }

    fn after(&self, _worker: u32, _nth: u64) {
        let _ = self.step(Stage::Fresh.word(), Stage::Armed);
    }
}

/// How far a `HoldGate` is.
#[derive(Clone, Copy)]
enum Stage {
    /// No node was solved yet.
    Fresh,
    /// A node was solved: the next `before` is held up.
    Armed,
    /// This worker is held up.
    Held(u32),
    /// Another worker came.
    Met,
    /// Nobody came in time.
    Over,
}

impl Stage {
    /// The stage as one word, which threads read and change in single steps.
    fn word(self) -> u64 {
        match self {
            Stage::Fresh => 0,
            Stage::Armed => 1,
            Stage::Met => 2,
            Stage::Over => 3,
            Stage::Held(worker) => 4 + u64::from(worker),
        }
    }
}

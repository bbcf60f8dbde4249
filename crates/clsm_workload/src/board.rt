//! What the threads of a run tell one another.
use std::sync::atomic::Ordering::SeqCst;
use std::sync::atomic::{AtomicBool, AtomicU64};

/// What the threads of a run tell one another: the calls and the merges that were made so far,
/// whether a worker was refused memory, and whether all workers have ended.
#[derive(Drop)]
pub struct Board {
    calls: AtomicU64,
    merges: AtomicU64,
    starved: AtomicBool,
    over: AtomicBool,
}

impl Board {
    /// The board of a run that begins.
    pub fn new() -> Board {
        Board {
            calls: AtomicU64::new(0),
            merges: AtomicU64::new(0),
            starved: AtomicBool::new(false),
            over: AtomicBool::new(false),
        }
    }

    pub fn calls(&self) -> u64 {
        self.calls.load(SeqCst)
    }

    pub fn count_call(&self) {
        self.calls.fetch_add(1, SeqCst);
    }

    pub fn merges(&self) -> u64 {
        self.merges.load(SeqCst)
    }

    pub fn count_merge(&self) {
        self.merges.fetch_add(1, SeqCst);
    }

    /// Whether a worker was refused memory. The others end too.
    pub fn is_starved(&self) -> bool {
        self.starved.load(SeqCst)
    }

    pub fn starve(&self) {
        self.starved.store(true, SeqCst);
    }

    /// Whether all workers have ended.
    pub fn is_over(&self) -> bool {
        self.over.load(SeqCst)
    }

    pub fn end(&self) {
        self.over.store(true, SeqCst);
    }
}

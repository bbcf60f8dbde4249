//! The gate of a session, at which writes let those in first that want to hold the lock alone.
use std::hint;
use std::sync::atomic::AtomicU64;
use std::sync::atomic::Ordering::SeqCst;
use std::sync::{Condvar, Mutex, Wait};

/// A write looks so often whether it may pass, and then sleeps.
const MOST_LOOKS: u32 = 1_000;

/// The store's lock is a word without a queue. Beside busy writers a batch, or a freeze, which want
/// to hold it alone, might lose it for ever: so each of them comes to this gate first.
#[derive(Drop)]
pub(crate) struct Gate {
    passing: Mutex<Passing>,
    /// By this the writes are woken that wait.
    passed: Condvar,
    /// So many have come and not gone: a copy, at which writes look without the mutex.
    waiting: AtomicU64,
}

/// How many have come that want to hold the lock alone, and how many of them have gone.
#[derive(Drop)]
struct Passing {
    came: u64,
    gone: u64,
}

impl Gate {
    pub(crate) fn new() -> Gate {
        Gate {
            passing: Mutex::new(Passing { came: 0, gone: 0 }),
            passed: Condvar::new(),
            waiting: AtomicU64::new(0),
        }
    }

    /// One comes that wants to hold the lock alone.
    pub(crate) fn come<R: Wait>(&self, rt: &R) {
        let mut passing = self.passing.lock(rt);
        passing.came = passing.came.saturating_add(1);
        let waiting = passing.came.saturating_sub(passing.gone);
        self.waiting.store(waiting, SeqCst);
    }

    /// One goes that has held the lock.
    pub(crate) fn go<R: Wait>(&self, rt: &R) {
        let mut passing = self.passing.lock(rt);
        passing.gone = passing.gone.saturating_add(1);
        let waiting = passing.came.saturating_sub(passing.gone);
        self.waiting.store(waiting, SeqCst);
        self.passed.notify_all();
    }

    /// Lets those in that have come, for a write that is about to take the lock.
    pub(crate) fn let_in<R: Wait>(&self, rt: &R) {
        for _ in 0..MOST_LOOKS {
            if self.waiting.load(SeqCst) == 0 {
                return;
            }
            hint::spin_loop();
        }
        self.wait(rt);
    }

    /// Waits until as many have gone as have come so far: not for those that come meanwhile.
    fn wait<R: Wait>(&self, rt: &R) {
        let mut passing = self.passing.lock(rt);
        let came = passing.came;
        for _ in rt.forever() {
            if passing.gone >= came {
                return;
            }
            passing = self.passed.wait(rt, passing);
        }
        unreachable!()
    }
}

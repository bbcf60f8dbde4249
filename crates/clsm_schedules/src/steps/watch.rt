//! The pace of the store: it notes each step, and holds one call before one of its steps.
use clsm_words::{Kind, Pace};
use std::alloc::{AllocError, Global};
use std::sync::OnceLock;
use std::sync::atomic::AtomicU64;
use std::sync::atomic::Ordering::SeqCst;
use std::thread;

/// How many steps are noted.
const ROOM: u64 = 500;

/// How often a thread looks for its turn before it goes on without it.
const TURNS: u64 = 10_000_000;

/// The turns: nothing is noted, nobody is held yet, the call is held, it was let go, and it is
/// over.
const CLOSED: u64 = 0;

const NOBODY: u64 = 1;

const HELD: u64 = 2;

const LET_GO: u64 = 3;

const OVER: u64 = 4;

/// A step that was made, and the number of who made it.
#[derive(Clone, Copy)]
struct Noted {
    player: u64,
    kind: Kind,
}

/// Who is held, and before the last of these steps.
#[derive(Drop)]
pub(crate) struct Hold {
    pub(crate) player: u32,
    pub(crate) steps: Vec<Kind>,
}

#[derive(Drop)]
pub(crate) struct Watch {
    hold: Hold,
    /// How many steps of the hold were made.
    made: AtomicU64,
    turn: AtomicU64,
    count: AtomicU64,
    noted: Vec<OnceLock<Noted>>,
}

impl Watch {
    pub(crate) fn new(alloc: Global, hold: Hold) -> Result<Watch, AllocError> {
        let mut noted = Vec::new(alloc);
        for _ in 0..ROOM {
            noted.push(OnceLock::new())?;
        }
        Ok(Watch {
            hold,
            made: AtomicU64::new(0),
            turn: AtomicU64::new(CLOSED),
            count: AtomicU64::new(0),
            noted,
        })
    }

    /// Takes the turn from one to the other. Answers whether it was the first.
    fn pass(&self, from: u64, to: u64) -> bool {
        self.turn.compare_exchange(from, to, SeqCst, SeqCst).is_ok()
    }

    /// Waits while this is the turn, but not for ever.
    fn wait_while(&self, turn: u64) {
        for _ in 0..TURNS {
            if self.turn.load(SeqCst) != turn {
                return;
            }
            thread::yield_now();
        }
    }

    /// From now on steps are noted, and the call is held.
    pub(crate) fn open(&self) {
        self.pass(CLOSED, NOBODY);
    }

    /// Waits until the call is held. Answers whether it is.
    pub(crate) fn wait_for_hold(&self) -> bool {
        self.wait_while(NOBODY);
        self.turn.load(SeqCst) == HELD
    }

    pub(crate) fn let_go(&self) {
        self.pass(HELD, LET_GO);
    }

    /// The call that may be held is over.
    pub(crate) fn end(&self) {
        self.pass(NOBODY, OVER);
    }

    /// The steps that the one with this number made.
    pub(crate) fn steps(&self, alloc: Global, player: u32) -> Result<Vec<Kind>, AllocError> {
        let mut steps = Vec::new(alloc);
        for place in &self.noted {
            if let Some(noted) = place.get()
                && noted.player == u64::from(player)
            {
                steps.push(noted.kind)?;
            }
        }
        Ok(steps)
    }

    fn note(&self, player: u64, kind: Kind) {
        let place = self.count.fetch_add(1, SeqCst) as usize;
        if let Some(place) = self.noted.get(place) {
            let _ = place.try_set(Noted { player, kind });
        }
    }

    /// Whether a step of this kind is the one before which the call is held.
    fn is_at_hold(&self, kind: Kind) -> bool {
        let made = self.made.load(SeqCst);
        if self.hold.steps.get(made as usize) != Some(&kind) {
            return false;
        }
        let next = made.wrapping_add(1);
        self.made.store(next, SeqCst);
        next == self.hold.steps.len() as u64 && self.pass(NOBODY, HELD)
    }
}

impl Pace for Watch {
    fn step(&self, seat: u64, kind: Kind) {
        if self.turn.load(SeqCst) == CLOSED {
            return;
        }
        self.note(seat, kind);
        if seat == u64::from(self.hold.player) && self.is_at_hold(kind) {
            self.wait_while(HELD);
            self.let_go();
        }
    }
}

//! A gate holds a seat at a step of its call until another thread lets it go, or counts its steps.
use super::act::{Answer, Turn};
use clsm_words::{Kind, Pace};
use std::sync::atomic::AtomicU64;
use std::sync::atomic::Ordering::SeqCst;
use std::thread;

/// How often a thread looks for its turn before it goes on without it.
const TURNS: u64 = 10_000_000;

/// Where a gate holds a seat, once, or again where it is told so: when it is about to make a step
/// of this kind, or of any. So many such steps it lets pass first, counted since it is watched.
#[derive(Clone, Copy)]
pub(super) struct Hold {
    pub(super) seat: u64,
    pub(super) kind: Option<Kind>,
    pub(super) passed: u64,
    /// The turn at first.
    pub(super) turn: u64,
}

/// Holds nobody.
pub(super) const NOWHERE: Hold = Hold {
    seat: 0,
    kind: None,
    passed: 0,
    turn: OPEN,
};

/// A gate that lets so many steps pass only counts them.
pub(super) const ALL: u64 = u64::MAX;

/// Counts all steps of seat 0.
pub(super) const ALL_STEPS: Hold = Hold {
    seat: 0,
    kind: None,
    passed: ALL,
    turn: NOBODY,
};

/// Seat 1 is held before its decide.
pub(super) const AT_DECIDE: Hold = Hold {
    seat: 1,
    kind: Some(Kind::Decide),
    passed: 0,
    turn: NOBODY,
};

#[derive(Drop)]
pub(super) struct Gate {
    seat: u64,
    kind: Option<Kind>,
    passed: u64,
    taken: AtomicU64,
    turn: AtomicU64,
}

/// The turns: the gate is open until it is watched, nobody is at it, the seat is held there, it was
/// let go, its call was answered, and it waited too long.
pub(super) const OPEN: u64 = 0;

pub(super) const NOBODY: u64 = 1;

const HELD: u64 = 2;

const LET_GO: u64 = 3;

const ANSWERED: u64 = 4;

const TOO_LONG: u64 = 5;

impl Gate {
    fn new(hold: &Hold) -> Gate {
        Gate {
            seat: hold.seat,
            kind: hold.kind,
            passed: hold.passed,
            taken: AtomicU64::new(0),
            turn: AtomicU64::new(hold.turn),
        }
    }

    /// Waits while this is the turn, but not for ever. Answers whether the seat is held then.
    fn wait_while(&self, turn: u64) -> bool {
        for _ in 0..TURNS {
            if self.turn.load(SeqCst) != turn {
                break;
            }
            thread::yield_now();
        }
        self.turn.load(SeqCst) == HELD
    }

    /// Takes the turn from one to the other. Answers whether it was the first.
    fn pass(&self, from: u64, to: u64) -> bool {
        self.turn.compare_exchange(from, to, SeqCst, SeqCst).is_ok()
    }

    /// Takes a turn at the gate.
    pub(super) fn take_turn(&self, turn: &Turn) -> Answer {
        match turn {
            Turn::Watch => {
                self.pass(OPEN, NOBODY);
                Answer::Done
            }
            Turn::Wait => {
                self.wait_while(OPEN);
                Answer::Held(self.wait_while(NOBODY))
            }
            Turn::LetGo => Answer::Held(self.pass(HELD, LET_GO)),
            Turn::LetPass => {
                self.taken.store(0, SeqCst);
                Answer::Held(self.pass(HELD, NOBODY))
            }
            Turn::LetEnd => {
                let held = self.pass(HELD, LET_GO);
                self.wait_while(LET_GO);
                Answer::Held(held)
            }
            Turn::End => {
                self.pass(LET_GO, ANSWERED);
                self.pass(NOBODY, ANSWERED);
                Answer::Done
            }
            Turn::Steps => Answer::Count(self.taken.swap(0, SeqCst)),
        }
    }

    fn step(&self, seat: u64, kind: Kind) {
        let is_here = seat == self.seat && self.kind.unwrap_or(kind) == kind;
        if !is_here || self.turn.load(SeqCst) != NOBODY {
            return;
        }
        if self.taken.fetch_add(1, SeqCst) == self.passed && self.pass(NOBODY, HELD) {
            self.wait_while(HELD);
            self.pass(HELD, TOO_LONG);
        }
    }
}

/// Two gates.
#[derive(Drop)]
pub(super) struct Gates {
    pub(super) first: Gate,
    pub(super) second: Gate,
}

impl Gates {
    pub(super) fn new(first: &Hold, second: &Hold) -> Gates {
        Gates {
            first: Gate::new(first),
            second: Gate::new(second),
        }
    }
}

impl Pace for Gates {
    fn step(&self, seat: u64, kind: Kind) {
        self.first.step(seat, kind);
        self.second.step(seat, kind);
    }
}

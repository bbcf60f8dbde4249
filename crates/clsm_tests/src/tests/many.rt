//! Reads of many keys, which are all at one time. The audit holds each against a plain map, as a
//! read of its own at that time.
use super::act::{Act, Answer, LET_GO, Step, WAIT};
use super::actor::Actor;
use super::case::{Case, FOUR_CELLS, NONE, PLAIN, alone};
use super::drawn::Mix;
use super::gate::{Hold, NOBODY, NOWHERE};
use clsm_law::Word;
use clsm_store::{Config, Deed, Value};
use clsm_words::Kind;
use std::process::Abort;

/// The most keys that are read at one time.
const MOST: usize = 4;

/// The keys from this one on.
fn keys_from(from: u64) -> [u64; MOST] {
    [
        from,
        from.wrapping_add(1),
        from.wrapping_add(2),
        from.wrapping_add(3),
    ]
}

/// How many of the keys have a value.
fn found_in(values: &[Option<Value>]) -> usize {
    let mut found = 0_usize;
    for value in values {
        if value.is_some() {
            found = found.wrapping_add(1);
        }
    }
    found
}

impl<'a> Actor<'a> {
    /// Reads so many keys from this one on at one time.
    pub(super) fn get_many(&mut self, rt: &impl Abort, from: u64, keys: usize) -> Answer {
        let count = keys.min(MOST);
        let keys = keys_from(from);
        let mut values = [None; MOST];
        let time = self.caller.get_many(&keys[..count], &mut values[..count]);
        for place in 0..count {
            let (key, reply) = (keys[place], values[place]);
            self.keep(rt, time, Deed::Get { key, reply });
        }
        Answer::Rows(time, found_in(&values[..count]))
    }

    /// Reads so many keys from this one on under the open snapshot.
    pub(super) fn get_many_at(&mut self, rt: &impl Abort, from: u64, keys: usize) -> Answer {
        if self.caller.snapshot_time().is_none() {
            return Answer::Other;
        }
        let count = keys.min(MOST);
        let keys = keys_from(from);
        let mut values = [None; MOST];
        let time = self
            .caller
            .get_many_at(&keys[..count], &mut values[..count]);
        for place in 0..count {
            let (key, reply) = (keys[place], values[place]);
            self.keep(rt, time, Deed::GetAt { key, reply });
        }
        Answer::Rows(time, found_in(&values[..count]))
    }
}

/// Under a snapshot the present is read, or the snapshot; through a merge both read the same. With
/// no key the clock is told, or the snapshot's time.
const STEPS: &[Step] = &[
    (Act::GetMany(0, 4), Answer::Rows(0, 0)),
    (Act::GetMany(0, 0), Answer::Rows(0, 0)),
    (Act::GetManyAt(0, 4), Answer::Other),
    (Act::Put(1, 10), Answer::At(0)),
    (Act::PutEight(3), Answer::At(1)),
    (Act::GetMany(0, 4), Answer::Rows(2, 2)),
    (Act::GetMany(3, 1), Answer::Rows(2, 1)),
    (Act::Snapshot, Answer::At(2)),
    (Act::Remove(1), Answer::At(2)),
    (Act::Put(u64::MAX, 1), Answer::At(3)),
    (Act::GetMany(u64::MAX, 4), Answer::Rows(4, 1)),
    (Act::GetManyAt(0, 4), Answer::Rows(2, 2)),
    (Act::GetManyAt(0, 0), Answer::Rows(2, 0)),
    (Act::Sweep, Answer::Clean),
    (Act::GetMany(0, 4), Answer::Rows(4, 1)),
    (Act::GetManyAt(0, 4), Answer::Rows(2, 2)),
    (Act::Put(0, 5), Answer::At(4)),
    (Act::GetMany(0, 4), Answer::Rows(5, 2)),
    (Act::GetManyAt(0, 4), Answer::Rows(2, 2)),
    (Act::Close, Answer::At(2)),
    (Act::GetMany(0, 0), Answer::Rows(5, 0)),
    (Act::Sweep, Answer::Clean),
    (Act::GetMany(0, 4), Answer::Rows(8, 2)),
];

/// Seat 1 is held behind its look at the clock, before it settles what is below.
const BETWEEN: Hold = Hold {
    seat: 1,
    kind: Some(Kind::Look(Word::State(0))),
    passed: 0,
    turn: NOBODY,
};

const OLD: &[Step] = &[(Act::BatchTwo(1, 10), Answer::At(0))];

/// Both keys are removed meanwhile.
const BESIDE: &[Step] = &[
    WAIT,
    (Act::Remove(1), Answer::At(2)),
    (Act::Remove(2), Answer::At(3)),
    (Act::GetMany(1, 2), Answer::Rows(4, 0)),
    LET_GO,
];

const HELD: &[Step] = &[
    (Act::GetMany(1, 2), Answer::Rows(2, 2)),
    (Act::GetMany(1, 2), Answer::Rows(4, 0)),
];

/// More cells than all calls and their tries need, whenever the merger sweeps.
const LARGE: Config = Config {
    cells: 4_096,
    seats: 4,
    run: 8_192,
    ..FOUR_CELLS
};

/// Pairs of neighbours are written at once, by random calls among others.
const CALLS: &[Step] = &[(Act::Calls(Mix::Changing, 4, 500), Answer::Done)];

pub(super) const CASES: &[Case] = &[
    alone!("many keys are read at one time", STEPS),
    Case {
        name: "a read of many keys is held while they are removed",
        gates: [BETWEEN, NOWHERE],
        phases: &[&[OLD], &[NONE, HELD, BESIDE]],
        ..PLAIN
    },
    Case {
        name: "three threads read many keys beside batches and merges",
        config: LARGE,
        phases: &[&[&[(Act::Sweeps(24), Answer::Count(24))], CALLS, CALLS, CALLS]],
        ..PLAIN
    },
];

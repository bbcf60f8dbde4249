//! Pages downwards, the first and the last row of a range, and many keys at one time, against a
//! plain map: however far its keys are apart, in epochs and runs, beside removed keys, older
//! versions, and under a snapshot.
use super::drawn::after;
use clsm_model::{Config, Key, PlainMap, Slot, Value};
use clsm_store::{Bound, Caller, Filled, Free, Merger, Opened, open};
use std::alloc::Global;
use std::process::Abort;
use std::sync::Wait;
use std::test::*;

const SIZES: Config = Config {
    cells: 64,
    seats: 1,
    shards: 2,
    run: 1_024,
    patience: 0,
};

/// The most rows of a page.
const ROWS: usize = 16;

/// So many keys are read at one time.
const KEYS: usize = 8;

/// Rounds of writes, each behind a sweep, and the writes of a round.
const ROUNDS: u64 = 9;

const WRITES: u64 = 20;

/// How far keys are apart.
#[derive(Clone, Copy)]
enum Spread {
    Near,
    Far,
    /// Many at the lower end, and some at the upper one.
    Ends,
}

/// A key that is drawn.
fn key_of(spread: Spread, word: u64) -> Key {
    let small = (word >> 24) % 128;
    match spread {
        Spread::Near => small,
        Spread::Far => word,
        Spread::Ends if small >= 120 => u64::MAX - small % 8,
        Spread::Ends => small,
    }
}

/// Both bounds belong to it.
#[derive(Clone, Copy)]
struct Range {
    lo: Key,
    hi: Key,
}

/// A store's one caller and its merger, and what the store is to have.
#[derive(Drop)]
struct Compared<'a> {
    caller: Caller<'a, Free>,
    merger: Option<Merger<'a, Free>>,
    map: PlainMap,
}

impl<'a> Compared<'a> {
    fn new(rt: &impl Abort, alloc: Global, bound: Bound<'a, Free>) -> Compared<'a> {
        let Bound {
            mut callers,
            merger,
        } = bound;
        Compared {
            caller: callers.pop().expect(rt, "a caller"),
            merger: Some(merger),
            map: PlainMap::new(alloc),
        }
    }

    /// The merger sweeps.
    fn sweep<R: Abort + Wait>(&mut self, rt: &R) {
        let Some(merger) = self.merger.take() else {
            return;
        };
        let (merger, swept) = merger.sweep(rt);
        assert_eq!(rt; swept, Ok(()));
        self.merger = Some(merger);
    }

    /// Writes the key in the map.
    fn note(&mut self, rt: &impl Abort, key: Key, value: Option<Value>) {
        let seat = 0;
        let slot = Slot::Wrote { seat, key, value };
        self.map.apply(&slot).expect(rt, "memory");
    }

    fn put<R: Abort + Wait>(&mut self, rt: &R, key: Key, word: u64) {
        let value = Value::from(word);
        self.caller.put(rt, key, value).expect(rt, "a cell is left");
        self.note(rt, key, Some(value));
    }

    fn remove<R: Abort + Wait>(&mut self, rt: &R, key: Key) {
        self.caller.remove(rt, key).expect(rt, "a cell is left");
        self.note(rt, key, None);
    }

    /// Puts words at keys that they draw, and removes each fourth one. Answers the last word.
    fn write_round<R: Abort + Wait>(&mut self, rt: &R, spread: Spread, first: u64) -> u64 {
        let mut word = first;
        for _ in 0..WRITES {
            word = after(word);
            let key = key_of(spread, word);
            if word >> 62 == 0 {
                self.remove(rt, key);
            } else {
                self.put(rt, key, word);
            }
        }
        word
    }

    /// A page downwards of so many rows is the map's.
    fn compare_page(&mut self, rt: &impl Abort, alloc: Global, range: Range, most: usize) {
        let Range { lo, hi } = range;
        let most = most.min(ROWS);
        let mut expected = self.map.range(lo, hi).expect(rt, "memory");
        expected.reverse();
        let mut page = [(0, Value::from(0)); ROWS];
        let filled = self.caller.page_down_into(alloc, lo, hi, &mut page[..most]);
        let Filled { rows, more, .. } = filled;
        assert_eq!(rt; rows, expected.len().min(most));
        assert!(rt; page[..rows] == expected[..rows]);
        assert_eq!(rt; more, expected.get(most).map(|row| row.0));
    }

    /// The range's first row and its last are the map's.
    fn compare_ends(&mut self, rt: &impl Abort, alloc: Global, range: Range) {
        let Range { lo, hi } = range;
        let expected = self.map.range(lo, hi).expect(rt, "memory");
        let first = self.caller.first(lo, hi);
        assert_eq!(rt; first.row, expected.first().copied());
        let last = self.caller.last(alloc, lo, hi);
        assert_eq!(rt; last.row, expected.last().copied());
    }

    fn compare_range(&mut self, rt: &impl Abort, alloc: Global, range: Range) {
        for most in [0, 1, ROWS] {
            self.compare_page(rt, alloc, range, most);
        }
        self.compare_ends(rt, alloc, range);
    }

    /// Ranges of all keys, between two keys, below one and above one.
    fn compare_ranges(&mut self, rt: &impl Abort, alloc: Global, lo: Key, hi: Key) {
        for (lo, hi) in [(0, u64::MAX), (lo, hi), (0, hi), (lo, u64::MAX)] {
            self.compare_range(rt, alloc, Range { lo, hi });
        }
    }

    /// Each value is the key's in the map.
    fn compare_values(&self, rt: &impl Abort, keys: &[Key], values: &[Option<Value>]) {
        for (key, value) in keys.iter().zip(values) {
            assert_eq!(rt; *value, self.map.get(*key));
        }
    }

    /// Many keys at one time are the map's.
    fn compare_many(&mut self, rt: &impl Abort, keys: &[Key; KEYS]) {
        let mut values = [None; KEYS];
        self.caller.get_many(keys, &mut values);
        self.compare_values(rt, keys, &values);
    }

    /// The same under the open snapshot, if one is open.
    fn compare_many_at(&mut self, rt: &impl Abort, keys: &[Key; KEYS]) {
        assert!(rt; self.caller.snapshot_time().is_some());
        let mut values = [None; KEYS];
        self.caller.get_many_at(keys, &mut values);
        self.compare_values(rt, keys, &values);
    }

    /// The snapshot reads as before, while a key is removed and put again.
    fn compare_snapshot<R: Abort + Wait>(
        &mut self,
        rt: &R,
        alloc: Global,
        keys: &[Key; KEYS],
        word: u64,
    ) {
        let (lo, hi) = (keys[0], keys[1]);
        self.caller.snapshot().expect(rt, "none is open");
        self.caller.remove(rt, lo).expect(rt, "a cell is left");
        self.compare_ranges(rt, alloc, lo, hi);
        self.compare_many_at(rt, keys);
        self.sweep(rt);
        self.compare_ranges(rt, alloc, lo, hi);
        self.compare_many_at(rt, keys);
        self.caller.close_snapshot();
        self.put(rt, lo, word);
    }

    /// Writes, a sweep, and reads of the present and of a snapshot. Answers the last word.
    fn play_round<R: Abort + Wait>(
        &mut self,
        rt: &R,
        alloc: Global,
        spread: Spread,
        first: u64,
    ) -> u64 {
        let word = self.write_round(rt, spread, first);
        let keys = keys_of(spread, word);
        self.compare_many(rt, &keys);
        self.compare_ranges(rt, alloc, keys[0], keys[1]);
        self.compare_snapshot(rt, alloc, &keys, word);
        self.compare_many(rt, &keys);
        word
    }
}

/// Keys that are drawn.
fn keys_of(spread: Spread, first: u64) -> [Key; KEYS] {
    let mut keys = [0; KEYS];
    let mut word = first;
    for place in 0..KEYS {
        keys[place] = key_of(spread, word);
        word = after(word);
    }
    keys
}

/// Rounds at keys so far apart.
fn play<R: Abort + Wait>(rt: &R, alloc: Global, spread: Spread) {
    let Opened {
        store,
        seats,
        merger,
    } = open(alloc, SIZES).expect(rt, "memory");
    let bound = store.bind(alloc, seats, merger).expect(rt, "memory");
    let mut compared = Compared::new(rt, alloc, bound);
    let mut word = 1;
    for _ in 0..ROUNDS {
        word = compared.play_round(rt, alloc, spread, word);
    }
}

#[test]
fn reads_are_those_of_a_plain_map(rt: HostRuntime) -> Result<(), Fail> {
    play(&rt, rt.alloc(), Spread::Near);
    play(&rt, rt.alloc(), Spread::Far);
    play(&rt, rt.alloc(), Spread::Ends);
    Ok(())
}

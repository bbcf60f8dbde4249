//! Hints may hold anything: searches that follow them answer right.
ghost use Rattle.std.specs.Prelude.{◌≡◌, []};

use super::drawn::after;
use clsm_law::Layout;
use clsm_model::{Config, Key, PlainMap, Slot, Value};
use clsm_scan::{Bounds, Collector, Filling, Listed};
use clsm_store_calls::{Collected, Got, read, scan_at, write};
use clsm_words::{Free, RawSeat, Words};
use std::alloc::Global;
use std::marker::Model;
use std::process::Abort;
use std::sync::Wait;
use std::test::*;

/// One seat at words whose epoch has room for so many writes.
const CELLS: usize = 64;

/// The rows of a page.
const PAGE: usize = 3;

/// The one seat of its words, between two calls.
#[derive(Drop)]
struct Alone {
    words: Words<Free>,
    seat: RawSeat,
    /// Its pin word.
    pin: u64,
}

impl Model for Alone {
    ghost use Rattle.std.specs.Prelude.{◌≡◌, None};
    ghost use Rattle.clsm_law.specs.OpenSteps.{open_time};
    ghost use Rattle.clsm_words.specs.declared.words.WordTable.{WordTable};
    ghost use Rattle.clsm_words.specs.Plays.{IsSeatOf};
    ghost use Rattle.clsm_store_calls.specs.Resting.{IsAtRest};

    ghost Value = { WordTable };

    ghost view = { λ a. a.words };

    ghost invariant = { λ a. IsSeatOf a.words a.seat × IsAtRest a.seat.knows × (a.pin ≡ a.seat.knows.view.pin)
        × (open_time a.seat.knows.view.snapshot ≡ None) };
}

fn layout(rt: &impl Abort) -> Layout {
    let config = Config {
        cells: CELLS,
        seats: 1,
        shards: 1,
        run: 4,
        patience: 0,
    };
    Layout::new(config).expect(rt, "sizes in their ranges")
}

fn opened(rt: &impl Abort, alloc: Global) -> Alone {
    let layout = layout(rt);
    let (words, mut seats, _merger) = Words::new(alloc, &layout, Free).expect(rt, "memory");
    let seat = seats.pop().expect(rt, "a seat");
    Alone {
        words,
        seat,
        pin: 0,
    }
}

impl Alone {
    /// Stores the word in the hint with this number, if there is one: each cell has three.
    fn store_hint(&mut self, number: u64, word: u64) {
        let cell = number / 3;
        if cell < 2 * self.words.cells() {
            self.words
                .store_hint(&mut self.seat, cell, number % 3, word);
        }
    }

    /// Stores rubbish in each hint of the epoch's cells: the cell itself, one of the other region,
    /// any number, none, or any cell of the epoch, written or not, before a target or behind it.
    fn store_hints(&mut self, first: u64) {
        let mut word = first;
        for number in 0..192 {
            word = after(word);
            let rubbish = match word >> 61 {
                0 => number / 3 + 1,
                1 => 65 + (word >> 32) % 64,
                2 => word,
                3 => 0,
                _ => 1 + (word >> 32) % 64,
            };
            self.store_hint(number, rubbish);
        }
    }

    /// Puts the word at the key, and in the map.
    fn put<R: Abort + Wait>(&mut self, rt: &R, map: &mut PlainMap, key: Key, word: u64) {
        let value = Value::new(&[word]).expect(rt, "one word");
        let written = write(rt, &self.words, &mut self.seat, key, &Some(value));
        assert!(rt; written.is_ok());
        let slot = Slot::Wrote {
            seat: 0,
            key,
            value: Some(value),
        };
        map.apply(&slot).expect(rt, "memory");
    }

    /// The key's value, and all pairs from the key on, are those of the map.
    fn compare(&mut self, rt: &impl Abort, alloc: Global, map: &PlainMap, key: Key) {
        let mut got = Got {
            time: 0,
            value: None,
        };
        read(&self.words, &mut self.seat, self.pin, key, &mut got);
        self.pin = self.pin.wrapping_add(2);
        assert_eq!(rt; got.value, map.get(key));
        let range = map.range(key, u64::MAX).expect(rt, "memory");
        let expected = range.as_slice();
        let mut listed = Listed::new(alloc, None).expect(rt, "memory");
        self.scan(key, &mut listed).expect(rt, "memory");
        assert!(rt; listed.rows.as_slice() == expected);
        let mut rows = [(0, Value::from(0)); PAGE];
        let mut filling = Filling {
            rows: &mut rows,
            count: 0,
        };
        let Ok(page) = self.scan(key, &mut filling);
        let count = filling.count;
        assert_eq!(rt; count, expected.len().min(PAGE));
        assert!(rt; rows[..count] == expected[..count]);
        assert_eq!(rt; page.more, expected.get(PAGE).map(|row| row.0));
    }

    /// Collects the rows from the key on.
    fn scan<R: Collector>(&mut self, key: Key, rows: &mut R) -> Result<Collected, R::Refusal>
        requires ready { R.is_ready rows.old }
        requires none { R.rows rows.old ≡ [] }
    {
        let (lo, hi) = (key, u64::MAX);
        let bounds = Bounds { lo, hi };
        let read = scan_at(&self.words, &mut self.seat, self.pin, bounds, rows);
        self.pin = self.pin.wrapping_add(2);
        read
    }
}

/// Writes and reads between rubbish, at many keys, or at few that have many versions each.
fn play<R: Abort + Wait>(rt: &R, alloc: Global, few: bool) {
    let mut alone = opened(rt, alloc);
    let mut map = PlainMap::new(alloc);
    let mut word = 0;
    for _ in 0..CELLS {
        word = after(word);
        let drawn = (word >> 32) % 40;
        let key = if few { drawn % 3 } else { drawn };
        alone.store_hints(word);
        alone.put(rt, &mut map, key, word);
        alone.store_hints(word.wrapping_add(1));
        alone.compare(rt, alloc, &map, (word >> 40) % 40);
        alone.compare(rt, alloc, &map, key);
        alone.compare(rt, alloc, &map, 0);
    }
}

#[test]
fn hints_may_hold_anything(rt: HostRuntime) -> Result<(), Fail> {
    play(&rt, rt.alloc(), false);
    play(&rt, rt.alloc(), true);
    Ok(())
}

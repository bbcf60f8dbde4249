//! The calls that read many keys, each of its own, at one time.
ghost use Rattle.std.specs.Prelude.{◌≡◌, ◌≢◌, None, length, map};
ghost use Rattle.clsm_store.specs.Promises.{GetsMany, GetsManyAt};

use crate::caller::Caller;
use crate::seat::{Seat, pass_read};
use crate::store::Store;
use clsm_model::Time;
use clsm_store_calls::{Keyed, OpenSnapshot, ValuePlace, read_many, read_many_under};
use clsm_words::Pace;

impl<P: Pace> Store<P> {
    /// Reads each of the keys at one time, which is the clock as the call found it, puts its value
    /// into the place beside it, or that it has none, and answers that time. So the answers are of
    /// one map, of which no write, batch or merge changes a part between them. A key may stand
    /// there several times. It is recorded as a `get` of the first key; with no key, it only reads
    /// at a time, with no record, as `hear`.
    ///
    /// It pins, looks at the clock and settles once, and then searches for each key as `get` does,
    /// so it costs less than as many gets. It takes no memory and no lock, never waits and is never
    /// refused.
    pub fn get_many<K: Keyed, V: ValuePlace>(
        &self,
        seat: &mut Seat,
        keys: &[K],
        places: &mut [V],
    ) -> Time
        requires of { seat.old.store ≡ self.now }
        requires same { length places.old ≡ length keys.now }
        ensures { GetsMany V.tells seat.old seat.new (map K.key keys.now) places.new result }
    {
        let time = read_many(&self.words, &mut seat.raw, seat.pin, keys, places);
        pass_read(&mut seat.pin);
        time
    }

    /// Reads each of the keys below the time of the seat's open snapshot, as `get_many`, and
    /// answers that time. It is recorded as a `get_at` of the first key; with no key, nothing is
    /// done.
    pub fn get_many_at<K: Keyed, V: ValuePlace>(
        &self,
        seat: &mut Seat,
        keys: &[K],
        places: &mut [V],
    ) -> Time
        requires of { seat.old.store ≡ self.now }
        requires opened { seat.old.snapshot ≢ None }
        requires same { length places.old ≡ length keys.now }
        ensures { GetsManyAt V.tells seat.old seat.new (map K.key keys.now) places.new result }
    {
        let Some(time) = seat.snapshot else {
            unreachable!()
        };
        if keys.is_empty() {
            seat.raw.show_invariant();
            return time;
        }
        let snapshot = OpenSnapshot {
            pin_word: seat.pin,
            time,
        };
        read_many_under(&self.words, &mut seat.raw, snapshot, keys, places);
        pass_read(&mut seat.pin);
        time
    }
}

impl<'a, P: Pace> Caller<'a, P> {
    /// As `Store::get_many`.
    pub fn get_many<K: Keyed, V: ValuePlace>(&mut self, keys: &[K], places: &mut [V]) -> Time
        requires { length places.old ≡ length keys.now }
        ensures { GetsMany V.tells self.old.seat self.new.seat (map K.key keys.now) places.new result }
    {
        self.store.get_many(&mut self.seat, keys, places)
    }

    /// As `Store::get_many_at`.
    pub fn get_many_at<K: Keyed, V: ValuePlace>(&mut self, keys: &[K], places: &mut [V]) -> Time
        requires opened { self.old.seat.snapshot ≢ None }
        requires same { length places.old ≡ length keys.now }
        ensures { GetsManyAt V.tells self.old.seat self.new.seat (map K.key keys.now) places.new result }
    {
        self.store.get_many_at(&mut self.seat, keys, places)
    }
}

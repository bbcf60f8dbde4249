//! The calls of one seat.
ghost use Rattle.std.specs.Prelude.{◌≡◌, ◌≢◌, None};
ghost use Rattle.clsm_model.specs.declared.record.Deed.TheVariants.{Put, Remove};
ghost use Rattle.clsm_store_calls.specs.Looking.{FindsRoom};
ghost use Rattle.clsm_store.specs.Promises.{ChangesBy, ClosesSnapshot, Gets, GetsAt, OpensSnapshot, TriesToChangeBy, TriesToWrite, TriesToWriteBatch, Writes};
ghost use Rattle.clsm_store.specs.Promises.{WritesBatch};

use crate::seat::{Seat, pass_read};
use crate::store::Store;
use clsm_model::{Change, Key, Time, Value};
use clsm_pins::close_snapshot;
use clsm_store_calls::{
    BatchError, Full, Got, Modification, Open, OpenSnapshot, Rmw, TryBatchError, TryPutError,
    batch, change, open_at, pin_after, read, read_under, room_at, try_batch, try_change, try_write,
    write,
};
use clsm_words::Pace;
use std::sync::Wait;

/// A write that never waits makes so many tries in its hold of the lock.
const ONE_TRY: u64 = 1;

impl<P: Pace> Store<P> {
    /// Writes the value at the key, and answers the write's time. It waits while a freeze or a
    /// batch holds the lock, and tries again if another seat was faster or a reader overtook it.
    /// Refused with `Full` if the clock stands at the limit while the seat holds the lock: nothing
    /// was written then, and the seat is as before.
    pub fn put<R: Wait>(
        &self,
        rt: &R,
        seat: &mut Seat,
        key: Key,
        value: Value,
    ) -> Result<Time, Full>
        requires { seat.old.store ≡ self.now }
        ensures { Writes seat.old seat.new (Put key value) result }
    {
        write(rt, &self.words, &mut seat.raw, key, &Some(value))
    }

    /// Removes the key, and answers the removal's time, whether or not the key had a value. It
    /// waits and is refused as `put`.
    pub fn remove<R: Wait>(&self, rt: &R, seat: &mut Seat, key: Key) -> Result<Time, Full>
        requires { seat.old.store ≡ self.now }
        ensures { Writes seat.old seat.new (Remove key) result }
    {
        write(rt, &self.words, &mut seat.raw, key, &None)
    }

    /// Writes all members as one batch, at consecutive times in their order, and answers the time
    /// of the first. They become visible together, by one step: no read of any seat is answered
    /// between them, and of members of one key the last one wins. A batch never spans two epochs.
    /// It holds the lock alone, once: it waits for that until no writer is inside, and keeps other
    /// writers out meanwhile, but no reader. It takes no memory; in the hold it gives up no time and
    /// loses no exchange.
    ///
    /// Refused, in this order: with `Empty` if there is no member, `TooLong` if there are more
    /// than an epoch has cells, `Keep` if a member keeps its key, each before it enters the lock;
    /// with `Full` if fewer times are left of the epoch than there are members. Nothing was
    /// written then, and the seat is as before. (LevelDB's write batch.)
    pub fn batch<R: Wait>(
        &self,
        rt: &R,
        seat: &mut Seat,
        members: &[(u64, Change)],
    ) -> Result<Time, BatchError>
        requires { seat.old.store ≡ self.now }
        ensures { WritesBatch seat.old seat.new members.now result }
    {
        batch(rt, &self.words, &mut seat.raw, members)
    }

    /// Writes the value at the key as `put`, but tries each exchange once and never waits. Refused
    /// with `Full` as `put`, with `Busy` if the lock was not free to enter, with `Raced` if
    /// another seat was faster, and with `Overtaken` if a reader cancelled the time: nothing was
    /// written then, and the seat is as before, but for its count of such refusals.
    pub fn try_put(&self, seat: &mut Seat, key: Key, value: Value) -> Result<Time, TryPutError>
        requires { seat.old.store ≡ self.now }
        ensures { TriesToWrite seat.old seat.new (Put key value) result }
    {
        try_write(&self.words, &mut seat.raw, key, &Some(value), ONE_TRY)
    }

    /// Removes the key as `remove`, but tries each exchange once and never waits. Refused as
    /// `try_put`.
    pub fn try_remove(&self, seat: &mut Seat, key: Key) -> Result<Time, TryPutError>
        requires { seat.old.store ≡ self.now }
        ensures { TriesToWrite seat.old seat.new (Remove key) result }
    {
        try_write(&self.words, &mut seat.raw, key, &None, ONE_TRY)
    }

    /// Writes all members as one batch as `batch`, but tries the lock once and never waits. Refused
    /// as `batch`, and behind the three refusals that come before the lock also with `Busy` if
    /// somebody held it, shared or alone: the seat is then as before, but for its count of such
    /// refusals. Once it holds the lock alone, nobody can be faster, so it is refused with `Full`
    /// alone.
    pub fn try_batch(
        &self,
        seat: &mut Seat,
        members: &[(u64, Change)],
    ) -> Result<Time, TryBatchError>
        requires { seat.old.store ≡ self.now }
        ensures { TriesToWriteBatch seat.old seat.new members.now result }
    {
        try_batch(&self.words, &mut seat.raw, members)
    }

    /// The value of the key at a time of the read's own, which is the clock as the read found it:
    /// the value that the newest write below that time left. It takes no lock and never waits; a
    /// write that is drawn below its time and still undecided after one look and `patience` more
    /// is cancelled, and its writer writes again. It is never refused.
    #[inline(always)]
    pub fn get(&self, seat: &mut Seat, key: Key) -> Got
        requires { seat.old.store ≡ self.now }
        ensures { Gets seat.old seat.new key result }
    {
        let mut got = Got {
            time: 0,
            value: None,
        };
        read(&self.words, &mut seat.raw, seat.pin, key, &mut got);
        pass_read(&mut seat.pin);
        got
    }

    /// Reads the key, and makes of its value what the function answers to it: with `Keep` the call
    /// is a read alone, with a time of its own as `get`; else it is a write, and `old` is the value
    /// of the key below the write's time, as no other write of the key came between (the cLSM
    /// paper's optimistic read-modify-write). If another seat wrote the key meanwhile, it gives up
    /// its time, at most one for each such write, and asks the function again. It waits and is
    /// refused as `put`.
    pub fn rmw<R: Wait, F: Fn(Option<Value>) -> Change>(
        &self,
        rt: &R,
        seat: &mut Seat,
        key: Key,
        f: &F,
    ) -> Result<Rmw, Full>
        requires of { seat.old.store ≡ self.now }
        requires callable { F.IsAlwaysCallable f.now }
        ensures { ChangesBy seat.old seat.new key (F.post f.now) result }
    {
        let modification = Modification { key, f };
        let answer = change(rt, &self.words, &mut seat.raw, seat.pin, &modification);
        pass_read(&mut seat.pin);
        answer
    }

    /// Reads the key, and makes of its value what the function answers to it, as `rmw`, but asks
    /// the function once, tries each exchange once and never waits. Refused as `try_put`, and with
    /// `Raced` also if another seat wrote the key between the read and the write: nothing was
    /// written then. After `Raced` and `Overtaken` a time that it had drawn is given up. Its read
    /// may cancel times of others, as `get`.
    pub fn try_rmw<F: Fn(Option<Value>) -> Change>(
        &self,
        seat: &mut Seat,
        key: Key,
        f: &F,
    ) -> Result<Rmw, TryPutError>
        requires of { seat.old.store ≡ self.now }
        requires callable { F.IsAlwaysCallable f.now }
        ensures { TriesToChangeBy seat.old seat.new key (F.post f.now) result }
    {
        let modification = Modification { key, f };
        let answer = try_change(&self.words, &mut seat.raw, seat.pin, &modification, ONE_TRY);
        seat.pin = pin_after(seat.pin, &answer);
        answer
    }

    /// Opens a snapshot at a time of its own, which is the clock as the call found it: it reads the
    /// map of the writes below that time until it is closed, through every merge (the cLSM paper's
    /// snapshot; LevelDB's). All below its time is decided when it answers. It takes no lock and
    /// never waits. Refused with `Open` if the seat has an open snapshot, which stays; nothing
    /// was done then.
    pub fn snapshot(&self, seat: &mut Seat) -> Result<Time, Open>
        requires { seat.old.store ≡ self.now }
        ensures { OpensSnapshot seat.old seat.new result }
    {
        if let Some(time) = seat.snapshot {
            return Err(Open { time });
        }
        let time = open_at(&self.words, &mut seat.raw, seat.pin);
        pass_read(&mut seat.pin);
        seat.snapshot = Some(time);
        Ok(time)
    }

    /// Closes the seat's snapshot, and answers its time, or `None` if none was open. Merges may
    /// then forget what only it read. It takes no lock, never waits and is never refused.
    pub fn close_snapshot(&self, seat: &mut Seat) -> Option<Time>
        requires { seat.old.store ≡ self.now }
        ensures { ClosesSnapshot seat.old seat.new result }
    {
        let time = seat.snapshot?;
        close_snapshot(&self.words, &mut seat.raw, time);
        seat.snapshot = None;
        Some(time)
    }

    /// The value of the key below the time of the seat's open snapshot. It takes no lock, never
    /// waits and is never refused.
    pub fn get_at(&self, seat: &mut Seat, key: Key) -> Got
        requires of { seat.old.store ≡ self.now }
        requires opened { seat.old.snapshot ≢ None }
        ensures { GetsAt seat.old seat.new key result }
    {
        let Some(time) = seat.snapshot else {
            unreachable!()
        };
        let snapshot = OpenSnapshot {
            pin_word: seat.pin,
            time,
        };
        let got = read_under(&self.words, &mut seat.raw, snapshot, key);
        pass_read(&mut seat.pin);
        got
    }
    /// How many timestamps are left in the epoch, as one look at its limit and then one at the
    /// clock find it, or 0 if the clock has passed that limit. The answer may be old at once:
    /// others draw timestamps, and a freeze makes room. It records nothing, costs two looks, takes
    /// no lock, never waits and is never refused.
    pub fn room(&self, seat: &mut Seat) -> u64
        requires { seat.old.store ≡ self.now }
        ensures { FindsRoom seat.old seat.new result }
    {
        room_at(&self.words, &mut seat.raw)
    }
}

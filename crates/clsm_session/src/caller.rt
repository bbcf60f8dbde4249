//! A caller of a session: the calls of the store, of which writes wait for room.
ghost use Rattle.std.specs.Prelude.{◌≡◌, length, map};
ghost use Rattle.clsm_model.specs.declared.record.Deed.TheVariants.{Put, Remove};
ghost use Rattle.clsm_model.specs.Changes.{Adds, PutsIfAbsent};
ghost use Rattle.clsm_store.specs.Promises.{ClosesSnapshot, CountsRange, FillsPage, Gets, GetsAtIfOpen, GivesNextPage, GivesPage, Hears, OpensSnapshot};
ghost use Rattle.clsm_store.specs.Promises.{FillsPageDown, FindsFirst, FindsLast, GetsMany, GetsManyAtIfOpen, Scans, ScansAnew, Tells};
ghost use Rattle.clsm_store.specs.Promises.{TriesToWriteBatchIf, VisitsRange};
ghost use Rattle.clsm_session.specs.Places.{HasPlace};
ghost use Rattle.clsm_session.specs.Promises.{WaitsToChangeBy, WaitsToPlay, WaitsToWrite, WaitsToWriteBatch, WaitsToWriteBatchIf};

use crate::board::Board;
use crate::job::Place;
use crate::refusal::{BatchIfRefused, BatchRefused, Refused};
use crate::{conditional, writing};
use clsm_model::Key;
use clsm_store::{
    Answer, Call, Caller, Change, Condition, Counted, Filled, FoundRow, Free, Got, Keyed, Memory,
    Message, Open, Page, Pages, Rmw, Row, Scan, Seat, Time, TryBatchIfError, Value, ValuePlace,
    added, put_if_absent,
};
use std::alloc::Global;
use std::marker::{Model, PhantomData};
use std::sync::Wait;

/// A caller of a session. Contracts see it as its seat. Its writes wait until there is room for
/// them, and are refused only if the merger can't make any; its reads never wait.
#[derive(Drop)]
pub struct SessionCaller<'a, R: Wait, P: Place> {
    rt: &'a R,
    alloc: Global,
    board: &'a Board,
    caller: Caller<'a, Free>,
    place: PhantomData<P>,
}

impl<'a, R: Wait, P: Place> Model for SessionCaller<'a, R, P> {
    ghost use Rattle.clsm_store_calls.specs.Seats.{SeatState};
    ghost use Rattle.clsm_session.specs.Places.{HasCells, HasPlace};

    ghost Value = { SeatState };

    ghost view = { λ s. s.caller.seat };

    ghost invariant = { λ s. HasPlace P.store P.number s.caller.seat × HasCells P.store s.board.now.cells };
}

impl<'a, R: Wait, P: Place> SessionCaller<'a, R, P> {
    /// The caller that has this seat, which has the place.
    #[tactic(auto, using(crate::proofs::Places::has_cells))]
    pub(crate) fn new(
        rt: &'a R,
        alloc: Global,
        board: &'a Board,
        caller: Caller<'a, Free>,
    ) -> SessionCaller<'a, R, P>
        requires place { HasPlace P.store P.number caller.seat }
        requires cells { board.now.cells ≡ caller.seat.store.layout.cells }
        ensures { result ≡ caller.entry.seat }
    {
        SessionCaller {
            rt,
            alloc,
            board,
            caller,
            place: PhantomData,
        }
    }

    /// Its seat.
    pub(crate) fn end(self) -> Seat
        ensures is { result ≡ self.entry }
        ensures place { HasPlace P.store P.number result }
    {
        self.caller.seat
    }

    /// Its number, from 0 to the number of seats less 1.
    pub fn number(&self) -> u32
        ensures { result ≡ self.now.number }
    {
        self.caller.seat.number()
    }

    /// Writes the value at the key, and answers the write's time. It waits while another caller's
    /// batch or the merger holds the lock, and while the epoch is full, until the merger has frozen
    /// it. Refused where the merger was called for this write and could not: in the write's last
    /// hold of the lock the clock stood at the limit, nothing was written, and the seat is as
    /// before but for its tally. It is refused with `Worn` if the next epoch would end past 2^62,
    /// and else with `RunFull`.
    #[tactic(auto, using(crate::proofs::Places::cells_of))]
    pub fn put(&mut self, key: Key, value: Value) -> Result<Time, Refused>
        ensures { WaitsToWrite self.old self.new (Put key value) result }
    {
        writing::write(self.rt, self.board, &mut self.caller, key, Some(&value))
    }

    /// Removes the key, and answers the removal's time, whether or not the key had a value. It
    /// waits and is refused as `put`.
    #[tactic(auto, using(crate::proofs::Places::cells_of))]
    pub fn remove(&mut self, key: Key) -> Result<Time, Refused>
        ensures { WaitsToWrite self.old self.new (Remove key) result }
    {
        writing::write(self.rt, self.board, &mut self.caller, key, None)
    }

    /// Reads the key, and makes of its value what the function answers to it, as `Store::rmw`. The
    /// function may be asked several times. It waits and is refused as `put`.
    #[tactic(auto, using(crate::proofs::Places::cells_of))]
    pub fn rmw<F: Fn(Option<Value>) -> Change>(&mut self, key: Key, f: &F) -> Result<Rmw, Refused>
        requires { F.IsAlwaysCallable f.now }
        ensures { WaitsToChangeBy self.old self.new key (F.post f.now) result }
    {
        writing::rmw(self.rt, self.board, &mut self.caller, key, f)
    }

    /// Adds the number to the key's word, which counts as 0 where the key has no value. It keeps
    /// the value where the sum passes 2^64 - 1 or the value has several words: the answer's
    /// `change` tells. It waits and is refused as `put`.
    pub fn add(&mut self, key: Key, by: u64) -> Result<Rmw, Refused>
        ensures { WaitsToChangeBy self.old self.new key (Adds by) result }
    {
        self.rmw(key, &|old| added(old, by))
    }

    /// Writes the value at the key where the key has none, and else keeps what it has: the answer's
    /// `old` tells. It waits and is refused as `put`.
    pub fn put_if_absent(&mut self, key: Key, value: Value) -> Result<Rmw, Refused>
        ensures { WaitsToChangeBy self.old self.new key (PutsIfAbsent value) result }
    {
        self.rmw(key, &|old| put_if_absent(old, value))
    }

    /// Writes all members as one batch, at consecutive times in their order, and answers the time
    /// of the first, as `Store::batch`. It waits and is refused as `put`, and also, before it takes
    /// the lock, with `Empty` where there is no member, `TooLong` where there are more than an
    /// epoch has cells, and `Keep` where a member keeps its key.
    #[tactic(auto, using(crate::proofs::Places::cells_of))]
    pub fn batch(&mut self, members: &[(u64, Change)]) -> Result<Time, BatchRefused>
        ensures { WaitsToWriteBatch self.old self.new members.now result }
    {
        writing::batch(self.rt, self.board, &mut self.caller, members)
    }

    /// Writes all members as one batch if each condition holds at the batch's own time, as
    /// `Store::batch_if`. It waits for room as `put`, and tests the conditions anew then. Refused
    /// with `Unmet` if one does not hold, as `put` if there is no room, and, before it takes the
    /// lock, with `TooLong` where there are more members than an epoch has cells, and `Keep` where
    /// a member keeps its key.
    #[tactic(auto, using(crate::proofs::Places::cells_of))]
    pub fn batch_if(
        &mut self,
        conditions: &[Condition],
        members: &[(u64, Change)],
    ) -> Result<Time, BatchIfRefused>
        ensures { WaitsToWriteBatchIf self.old self.new conditions.now members.now result }
    {
        conditional::batch_if(self.rt, self.board, &mut self.caller, conditions, members)
    }

    /// Writes all members as one batch if each condition holds, as `Store::try_batch_if`: it tries
    /// the lock once, and never waits. Where the epoch is full it is refused, and the merger is not
    /// called.
    pub fn try_batch_if(
        &mut self,
        conditions: &[Condition],
        members: &[(u64, Change)],
    ) -> Result<Time, TryBatchIfError>
        ensures { TriesToWriteBatchIf self.old self.new conditions.now members.now result }
    {
        self.caller.try_batch_if(conditions, members)
    }

    /// As `Store::get`.
    #[inline(always)]
    pub fn get(&mut self, key: Key) -> Got
        ensures { Gets self.old self.new key result }
    {
        self.caller.get(key)
    }

    /// As `Store::snapshot`. Close it before the job ends or waits for long, since the merger keeps
    /// all that it may read.
    pub fn snapshot(&mut self) -> Result<Time, Open>
        ensures { OpensSnapshot self.old self.new result }
    {
        self.caller.snapshot()
    }

    /// As `Store::close_snapshot`.
    pub fn close_snapshot(&mut self) -> Option<Time>
        ensures { ClosesSnapshot self.old self.new result }
    {
        self.caller.close_snapshot()
    }

    /// As `Store::get_at`, but answers `None`, with nothing done, where no snapshot is open.
    pub fn get_at(&mut self, key: Key) -> Option<Got>
        ensures { GetsAtIfOpen self.old self.new key result }
    {
        self.caller.snapshot_time()?;
        Some(self.caller.get_at(key))
    }

    /// As `Store::get_many`.
    pub fn get_many<K: Keyed, V: ValuePlace>(&mut self, keys: &[K], places: &mut [V]) -> Time
        requires { length places.old ≡ length keys.now }
        ensures { GetsMany V.tells self.old self.new (map K.key keys.now) places.new result }
    {
        self.caller.get_many(keys, places)
    }

    /// As `Store::get_many_at`, but answers `None`, with nothing done, where no snapshot is open.
    pub fn get_many_at<K: Keyed, V: ValuePlace>(
        &mut self,
        keys: &[K],
        places: &mut [V],
    ) -> Option<Time>
        requires { length places.old ≡ length keys.now }
        ensures { GetsManyAtIfOpen V.tells self.old self.new (map K.key keys.now) places.old places.new result }
    {
        self.caller.snapshot_time()?;
        Some(self.caller.get_many_at(keys, places))
    }

    /// As `Store::scan`.
    pub fn scan(&mut self, lo: Key, hi: Key) -> Result<Scan, Memory>
        ensures { Scans self.old self.new lo hi result }
    {
        self.caller.scan(self.alloc, lo, hi)
    }

    /// As `Store::page`.
    pub fn page(&mut self, from: u64, hi: Key, max: usize) -> Result<Page, Memory>
        ensures { GivesPage self.old self.new from hi max result }
    {
        self.caller.page(self.alloc, from, hi, max)
    }

    /// As `Store::page_into`.
    pub fn page_into<T: Row>(&mut self, from: u64, hi: Key, rows: &mut [T]) -> Filled
        ensures { FillsPage T.pair T.is_row self.old self.new from hi rows.old rows.new result }
    {
        self.caller.page_into(from, hi, rows)
    }

    /// As `Store::page_down_into`.
    pub fn page_down_into<T: Row>(&mut self, lo: Key, hi: Key, rows: &mut [T]) -> Filled
        ensures { FillsPageDown T.pair T.is_row self.old self.new lo hi rows.old rows.new result }
    {
        self.caller.page_down_into(self.alloc, lo, hi, rows)
    }

    /// As `Store::first`.
    pub fn first(&mut self, lo: Key, hi: Key) -> FoundRow
        ensures { FindsFirst self.old self.new lo hi result }
    {
        self.caller.first(lo, hi)
    }

    /// As `Store::last`.
    pub fn last(&mut self, lo: Key, hi: Key) -> FoundRow
        ensures { FindsLast self.old self.new lo hi result }
    {
        self.caller.last(self.alloc, lo, hi)
    }

    /// As `Caller::next_page`.
    pub fn next_page(&mut self, pages: &mut Pages) -> Result<Option<Page>, Memory>
        ensures { GivesNextPage self.old self.new pages.old pages.new result }
    {
        self.caller.next_page(self.alloc, pages)
    }

    /// As `Store::count`.
    pub fn count(&mut self, lo: Key, hi: Key) -> Counted
        ensures { CountsRange self.old self.new lo hi result }
    {
        self.caller.count(self.alloc, lo, hi)
    }

    /// As `Store::visit`.
    pub fn visit<F: FnMut(u64, Value)>(&mut self, lo: Key, hi: Key, call: &mut F) -> Counted
        requires { F.IsAlwaysCallable call.old }
        ensures { VisitsRange (λ before row after. F.step before row.0 row.1 tt after) F.IsAlwaysCallable
            self.old self.new lo hi call.old call.new result }
    {
        self.caller.visit(self.alloc, lo, hi, call)
    }

    /// As `Store::scan_now`.
    pub fn scan_now(&mut self, lo: Key, hi: Key) -> Result<Scan, Memory>
        ensures { ScansAnew self.old self.new lo hi result }
    {
        self.caller.scan_now(self.alloc, lo, hi)
    }

    /// The time of its open snapshot, if one is open.
    pub fn snapshot_time(&self) -> Option<Time>
        ensures { result ≡ self.now.snapshot }
    {
        self.caller.snapshot_time()
    }

    /// As `Store::tell`.
    pub fn tell(&mut self) -> Message
        ensures { Tells self.old.store self.old self.new result }
    {
        self.caller.tell()
    }

    /// As `Store::hear`.
    pub fn hear(&mut self, message: Message) -> Time
        requires { message.table ≡ self.old.store.table }
        ensures { Hears message self.old self.new result }
    {
        self.caller.hear(message)
    }

    /// Makes the call, and answers what the method of its name answers: it waits, counts and is
    /// refused as that. A `Try` is made once, as `Store::try_put`.
    pub fn play(&mut self, call: &Call) -> Result<Answer, BatchRefused>
        ensures { WaitsToPlay call.now self.old self.new result }
    {
        match call {
            Call::Put { key, value } => Ok(Answer::Write(Ok(self.put(*key, *value)?))),
            Call::Remove { key } => Ok(Answer::Write(Ok(self.remove(*key)?))),
            Call::Add { key, by } => Ok(Answer::Change(Ok(self.add(*key, *by)?))),
            Call::Claim { key, value } => {
                Ok(Answer::Change(Ok(self.put_if_absent(*key, *value)?)))
            }
            Call::Batch { members } => Ok(Answer::Batch(Ok(self.batch(members.as_slice())?))),
            _ => Ok(self.caller.play(self.rt, self.alloc, call)),
        }
    }
}

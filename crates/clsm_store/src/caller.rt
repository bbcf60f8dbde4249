//! A caller with its store: the calls of the store. Only `get_at` asks for an open snapshot.
ghost use Rattle.std.specs.Prelude.{◌≡◌, ◌≢◌, None};
ghost use Rattle.clsm_model.specs.declared.record.Deed.TheVariants.{Put, Remove};
ghost use Rattle.clsm_law.specs.Relation.{call_of};
ghost use Rattle.clsm_store_calls.specs.Looking.{FindsRoom};
ghost use Rattle.clsm_store.specs.Promises.{ChangesBy, ClosesSnapshot, CountsRange, FillsPage, Gets, GetsAt, OpensSnapshot, GivesPage, Scans, ScansAnew};
ghost use Rattle.clsm_store.specs.Promises.{TriesToChangeBy, TriesToWrite, TriesToWriteBatch, VisitsRange, Writes, WritesBatch};

use crate::seat::Seat;
use crate::store::Store;
use clsm_model::{CallRecord, Change, Deed, Key, Memory, Time, Value};
use clsm_scan::Row;
use clsm_store_calls::{
    BatchError, Counted, Filled, Full, Got, Open, Page, Rmw, Scan, TryBatchError, TryPutError,
};
use clsm_words::Pace;
use std::alloc::Global;
use std::sync::Wait;

/// A caller: a store and one of its seats, by which the caller makes its calls. It may be moved to
/// another thread.
#[derive(Drop)]
pub struct Caller<'a, P: Pace> {
    pub store: &'a Store<P>,
    pub seat: Seat,
    pub ghost of: { seat.store ≡ store.now },
}

impl<'a, P: Pace> Caller<'a, P> {
    /// The caller that has this seat, which is one of the store's.
    pub fn new(store: &'a Store<P>, seat: Seat) -> Caller<'a, P>
        requires { seat.store ≡ store.now }
        ensures { result.seat ≡ seat }
    {
        Caller { store, seat }
    }

    /// As `Store::put`.
    pub fn put<R: Wait>(&mut self, rt: &R, key: Key, value: Value) -> Result<Time, Full>
        ensures { Writes self.old.seat self.new.seat (Put key value) result }
    {
        self.store.put(rt, &mut self.seat, key, value)
    }

    /// As `Store::remove`.
    pub fn remove<R: Wait>(&mut self, rt: &R, key: Key) -> Result<Time, Full>
        ensures { Writes self.old.seat self.new.seat (Remove key) result }
    {
        self.store.remove(rt, &mut self.seat, key)
    }

    /// As `Store::batch`.
    pub fn batch<R: Wait>(&mut self, rt: &R, members: &[(u64, Change)]) -> Result<Time, BatchError>
        ensures { WritesBatch self.old.seat self.new.seat members.now result }
    {
        self.store.batch(rt, &mut self.seat, members)
    }

    /// As `Store::try_put`.
    pub fn try_put(&mut self, key: Key, value: Value) -> Result<Time, TryPutError>
        ensures { TriesToWrite self.old.seat self.new.seat (Put key value) result }
    {
        self.store.try_put(&mut self.seat, key, value)
    }

    /// As `Store::try_remove`.
    pub fn try_remove(&mut self, key: Key) -> Result<Time, TryPutError>
        ensures { TriesToWrite self.old.seat self.new.seat (Remove key) result }
    {
        self.store.try_remove(&mut self.seat, key)
    }

    /// As `Store::try_batch`.
    pub fn try_batch(&mut self, members: &[(u64, Change)]) -> Result<Time, TryBatchError>
        ensures { TriesToWriteBatch self.old.seat self.new.seat members.now result }
    {
        self.store.try_batch(&mut self.seat, members)
    }

    /// As `Store::get`.
    #[inline(always)]
    pub fn get(&mut self, key: Key) -> Got
        ensures { Gets self.old.seat self.new.seat key result }
    {
        self.store.get(&mut self.seat, key)
    }

    /// As `Store::rmw`.
    pub fn rmw<R: Wait, F: Fn(Option<Value>) -> Change>(
        &mut self,
        rt: &R,
        key: Key,
        f: &F,
    ) -> Result<Rmw, Full>
        requires { F.IsAlwaysCallable f.now }
        ensures { ChangesBy self.old.seat self.new.seat key (F.post f.now) result }
    {
        self.store.rmw(rt, &mut self.seat, key, f)
    }

    /// As `Store::try_rmw`.
    pub fn try_rmw<F: Fn(Option<Value>) -> Change>(
        &mut self,
        key: Key,
        f: &F,
    ) -> Result<Rmw, TryPutError>
        requires { F.IsAlwaysCallable f.now }
        ensures { TriesToChangeBy self.old.seat self.new.seat key (F.post f.now) result }
    {
        self.store.try_rmw(&mut self.seat, key, f)
    }

    /// As `Store::snapshot`.
    pub fn snapshot(&mut self) -> Result<Time, Open>
        ensures { OpensSnapshot self.old.seat self.new.seat result }
    {
        self.store.snapshot(&mut self.seat)
    }

    /// As `Store::close_snapshot`.
    pub fn close_snapshot(&mut self) -> Option<Time>
        ensures { ClosesSnapshot self.old.seat self.new.seat result }
    {
        self.store.close_snapshot(&mut self.seat)
    }

    /// As `Store::get_at`.
    pub fn get_at(&mut self, key: Key) -> Got
        requires { self.old.seat.snapshot ≢ None }
        ensures { GetsAt self.old.seat self.new.seat key result }
    {
        self.store.get_at(&mut self.seat, key)
    }

    /// As `Store::scan`.
    pub fn scan(&mut self, alloc: Global, lo: Key, hi: Key) -> Result<Scan, Memory>
        ensures { Scans self.old.seat self.new.seat lo hi result }
    {
        self.store.scan(alloc, &mut self.seat, lo, hi)
    }

    /// As `Store::page`.
    pub fn page(&mut self, alloc: Global, from: u64, hi: Key, max: usize) -> Result<Page, Memory>
        ensures { GivesPage self.old.seat self.new.seat from hi max result }
    {
        self.store.page(alloc, &mut self.seat, from, hi, max)
    }

    /// As `Store::page_into`.
    pub fn page_into<R: Row>(&mut self, from: u64, hi: Key, rows: &mut [R]) -> Filled
        ensures { FillsPage R.pair R.is_row self.old.seat self.new.seat from hi rows.old rows.new result }
    {
        self.store.page_into(&mut self.seat, from, hi, rows)
    }

    /// As `Store::count`.
    pub fn count(&mut self, alloc: Global, lo: Key, hi: Key) -> Counted
        ensures { CountsRange self.old.seat self.new.seat lo hi result }
    {
        self.store.count(alloc, &mut self.seat, lo, hi)
    }

    /// As `Store::visit`.
    pub fn visit<F: FnMut(u64, Value)>(
        &mut self,
        alloc: Global,
        lo: Key,
        hi: Key,
        call: &mut F,
    ) -> Counted
        requires { F.IsAlwaysCallable call.old }
        ensures { VisitsRange (λ before row after. F.step before row.0 row.1 tt after) F.IsAlwaysCallable
            self.old.seat self.new.seat lo hi call.old call.new result }
    {
        self.store.visit(alloc, &mut self.seat, lo, hi, call)
    }

    /// As `Store::scan_now`.
    pub fn scan_now(&mut self, alloc: Global, lo: Key, hi: Key) -> Result<Scan, Memory>
        ensures { ScansAnew self.old.seat self.new.seat lo hi result }
    {
        self.store.scan_now(alloc, &mut self.seat, lo, hi)
    }

    /// As `Store::room`.
    pub fn room(&mut self) -> u64
        ensures { FindsRoom self.old.seat self.new.seat result }
    {
        self.store.room(&mut self.seat)
    }

    /// As `Seat::record_of`.
    pub fn record_of(&self, time: Time, deed: Deed) -> CallRecord
        ensures { result ≡ call_of self.now.seat.number time deed }
    {
        self.seat.record_of(time, deed)
    }

    /// As `Seat::snapshot_time`.
    pub fn snapshot_time(&self) -> Option<Time>
        ensures { result ≡ self.now.seat.snapshot }
    {
        self.seat.snapshot_time()
    }
}

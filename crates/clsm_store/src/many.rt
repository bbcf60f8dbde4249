//! The calls that read many keys at one time.
ghost use Rattle.std.specs.Prelude.{◌≡◌, [], IfErr, IfOk};
ghost use Rattle.clsm_store_calls.specs.Scanning.{CountsKeys, IsAtClock, IsKeyVisit, VisitsKeys, rows_deed};
ghost use Rattle.clsm_store_calls.specs.Seats.{Answers, Refuses, known_by};
ghost use Rattle.clsm_store_calls.specs.Tally.{TakesNoLock};
ghost use Rattle.clsm_store.specs.Promises.{CountsRange, FillsPage, GivesPage, Scans, ScansAnew, VisitsRange};

use crate::seat::{Seat, pass_read, under};
use crate::store::Store;
use clsm_model::{Key, Memory, Rows, Value};
use clsm_scan::{Bounds, Calling, Collector, Filling, Listed, Passing, Row, Visitor};
use clsm_store_calls::{
    Collected, Counted, Filled, Page, Scan, Visit, scan_at, scan_now, scan_under, visit_at,
    visit_under,
};
use clsm_words::Pace;
use std::alloc::Global;

impl<P: Pace> Store<P> {
    /// Collects the rows within the bounds, at the time of the seat's open snapshot, or else at one
    /// of its own.
    fn read_many<R: Collector>(
        &self,
        seat: &mut Seat,
        bounds: Bounds,
        rows: &mut R,
    ) -> Result<Collected, R::Refusal>
        requires of { seat.old.store ≡ self.now }
        requires ready { R.is_ready rows.old }
        requires none { R.rows rows.old ≡ [] }
        ensures answers { IfOk result (λ read. Answers seat.old seat.new read.time
            (rows_deed (R.most rows.new) bounds.lo bounds.hi (R.rows rows.new) read.more)) }
        ensures clock { IfOk result (λ read. IsAtClock seat.old seat.new read.time) }
        ensures lock { TakesNoLock seat.old.tally seat.new.tally }
        ensures refused { IfErr result (λ refusal. Refuses seat.old seat.new) }
        ensures ready { R.is_ready rows.new }
        ensures most { R.most rows.new ≡ R.most rows.old }
        ensures goes_on { R.goes_on rows.old rows.new }
    {
        let read = match under(seat.pin, seat.snapshot) {
            None => scan_at(&self.words, &mut seat.raw, seat.pin, bounds, rows),
            Some(open) => scan_under(&self.words, &mut seat.raw, open, bounds, rows),
        };
        pass_read(&mut seat.pin);
        read
    }

    /// All pairs with `lo <= key <= hi` by rising key, as one read: at the time of the seat's open
    /// snapshot, else at a time of its own, as `get`. There are none if `lo > hi`. It reads the
    /// runs and the ordered lists of the component in memory from `lo` to `hi`, and takes memory
    /// for the rows alone. It takes no lock and never waits. Refused if memory runs out: nothing is
    /// recorded then, and the seat is at rest.
    pub fn scan(&self, alloc: Global, seat: &mut Seat, lo: Key, hi: Key) -> Result<Scan, Memory>
        requires { seat.old.store ≡ self.now }
        ensures { Scans seat.old seat.new lo hi result }
    {
        let mut listed = Listed::new(alloc, None)?;
        let Collected { time, .. } = self.read_many(seat, Bounds { lo, hi }, &mut listed)?;
        let rows = Rows::new(listed.rows);
        Ok(Scan { time, rows })
    }

    /// The first `max` of the pairs with `from <= key <= hi` by rising key, and the key of the
    /// first one that is left out, where the next page begins. It reads at the time of the seat's
    /// open snapshot, else at a time of its own, so only pages under one snapshot are of one map.
    /// It takes no lock, never waits and is refused as `scan`.
    pub fn page(
        &self,
        alloc: Global,
        seat: &mut Seat,
        from: u64,
        hi: Key,
        max: usize,
    ) -> Result<Page, Memory>
        requires { seat.old.store ≡ self.now }
        ensures { GivesPage seat.old seat.new from hi max result }
    {
        let mut listed = Listed::new(alloc, Some(max))?;
        let bounds = Bounds { lo: from, hi };
        let Collected { time, more } = self.read_many(seat, bounds, &mut listed)?;
        let rows = Rows::new(listed.rows);
        Ok(Page { time, rows, more })
    }

    /// The page that fills the rows behind a reference.
    fn fill<R: Row>(&self, seat: &mut Seat, bounds: Bounds, filling: &mut Filling<'_, R>) -> Filled
        requires of { seat.old.store ≡ self.now }
        requires none { filling.old.count ≡ 0 }
        ensures page { FillsPage R.pair R.is_row seat.old seat.new bounds.lo bounds.hi filling.old.rows.now filling.new.rows.now result }
        ensures same_reference { filling.new.rows.ghost_name ≡ filling.old.rows.ghost_name }
    {
        let Ok(Collected { time, more }) = self.read_many(seat, bounds, filling);
        let rows = filling.count;
        Filled { time, rows, more }
    }

    /// As many of the first pairs with `from <= key <= hi` by rising key as there are rows, which
    /// it fills from the first one on, and the key of the first pair that is left out, where the
    /// next page begins. The rows behind those stay as they are. It reads as `page`, but takes no
    /// memory, and is never refused.
    pub fn page_into<R: Row>(&self, seat: &mut Seat, from: u64, hi: Key, rows: &mut [R]) -> Filled
        requires { seat.old.store ≡ self.now }
        ensures { FillsPage R.pair R.is_row seat.old seat.new from hi rows.old rows.new result }
    {
        let mut filling = Filling { rows, count: 0 };
        self.fill(seat, Bounds { lo: from, hi }, &mut filling)
    }

    /// All pairs with `lo <= key <= hi` by rising key, as one read at a time of its own, also while
    /// the seat has an open snapshot: of the present, then, and not of the snapshot. It is recorded
    /// as a `get` of `lo`, as the record of a scan under a snapshot is of the snapshot's time. It
    /// takes no lock, never waits and is refused as `scan`.
    pub fn scan_now(&self, alloc: Global, seat: &mut Seat, lo: Key, hi: Key) -> Result<Scan, Memory>
        requires { seat.old.store ≡ self.now }
        ensures { ScansAnew seat.old seat.new lo hi result }
    {
        let mut listed = Listed::new(alloc, None)?;
        let bounds = Bounds { lo, hi };
        let read = scan_now(&self.words, &mut seat.raw, seat.pin, bounds, &mut listed);
        pass_read(&mut seat.pin);
        let Collected { time, .. } = read?;
        let rows = Rows::new(listed.rows);
        Ok(Scan { time, rows })
    }

    /// The visit at the time of the seat's open snapshot, or else at one of its own.
    fn visit_with<V: Visitor>(&self, seat: &mut Seat, visit: &mut Visit<V>) -> Counted
        requires of { seat.old.store ≡ self.now }
        requires ready { V.is_ready visit.old.visitor }
        ensures counts { CountsKeys seat.old seat.new result.time visit.old.bounds.lo visit.old.bounds.hi result.keys result.first }
        ensures visits { IsKeyVisit V.takes (known_by seat.new) result.time visit.old.bounds.lo visit.old.bounds.hi result.keys
            visit.old.visitor visit.new.visitor }
        ensures lock { TakesNoLock seat.old.tally seat.new.tally }
    {
        let counted = match under(seat.pin, seat.snapshot) {
            None => visit_at(&self.words, &mut seat.raw, seat.pin, visit),
            Some(open) => visit_under(&self.words, &mut seat.raw, open, visit),
        };
        pass_read(&mut seat.pin);
        counted
    }

    /// How many keys from `lo` to `hi` have a value: at the time of the seat's open snapshot, else
    /// at a time of its own, as `get`. It is 0 if `lo > hi`. It makes the looks of a scan of that
    /// range but for those at values, and takes no memory and no lock. It never waits and is never
    /// refused. It is recorded as a page of no rows, whose `more` is the first of the keys.
    pub fn count(&self, alloc: Global, seat: &mut Seat, lo: Key, hi: Key) -> Counted
        requires { seat.old.store ≡ self.now }
        ensures { CountsRange seat.old seat.new lo hi result }
    {
        let mut passing = Visit {
            alloc,
            bounds: Bounds { lo, hi },
            visitor: Passing,
        };
        self.visit_with(seat, &mut passing)
    }

    /// The visit by a visitor that calls the function behind its reference.
    fn visit_calling<F: FnMut(u64, Value)>(
        &self,
        seat: &mut Seat,
        visit: &mut Visit<Calling<'_, F>>,
    ) -> Counted
        requires of { seat.old.store ≡ self.now }
        requires callable { F.IsAlwaysCallable visit.old.visitor.call.now }
        ensures visits { VisitsKeys (λ before row after. F.step before row.0 row.1 tt after)
            seat.old seat.new result.time visit.old.bounds.lo visit.old.bounds.hi result.keys result.first
            visit.old.visitor.call.now visit.new.visitor.call.now }
        ensures callable { F.IsAlwaysCallable visit.new.visitor.call.now }
        ensures same_reference { visit.new.visitor.call.ghost_name ≡ visit.old.visitor.call.ghost_name }
        ensures lock { TakesNoLock seat.old.tally seat.new.tally }
    {
        self.visit_with(seat, visit)
    }

    /// Calls the function with each key from `lo` to `hi` that has a value, by rising key, and the
    /// value: the rows of a scan of that range, for which it takes no memory. It is called with
    /// each of them once, and with nothing else. It reads, answers and is recorded as `count`, and
    /// takes no lock. It never waits and is never refused, but while the function runs, the seat
    /// keeps its component, which no merge can reclaim.
    pub fn visit<F: FnMut(u64, Value)>(
        &self,
        alloc: Global,
        seat: &mut Seat,
        lo: Key,
        hi: Key,
        call: &mut F,
    ) -> Counted
        requires of { seat.old.store ≡ self.now }
        requires callable { F.IsAlwaysCallable call.old }
        ensures { VisitsRange (λ before row after. F.step before row.0 row.1 tt after) F.IsAlwaysCallable
            seat.old seat.new lo hi call.old call.new result }
    {
        let mut calling = Visit {
            alloc,
            bounds: Bounds { lo, hi },
            visitor: Calling { call },
        };
        self.visit_calling(seat, &mut calling)
    }
}

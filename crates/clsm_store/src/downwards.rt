//! Pages downwards: the rows of a range by falling key.
ghost use Rattle.std.specs.Prelude.{◌≡◌, ◌≤◌, [], length, map, take};
ghost use Rattle.clsm_model.specs.{History.end_of, Right.page_deed};
ghost use Rattle.clsm_scan.specs.Filling.{AreFilled, FillsOn};
ghost use Rattle.clsm_store_calls.specs.{Downwards.IsPageDown, Scanning.IsAtClock, Tally.TakesNoLock};
ghost use Rattle.clsm_store_calls.specs.Seats.{Answers, known_by};
ghost use Rattle.clsm_store.specs.Promises.{FillsPageDown};

use crate::caller::Caller;
use crate::seat::{Seat, pass_read, under};
use crate::store::Store;
use clsm_model::Key;
use clsm_scan::{Bounds, Filling, Row};
use clsm_store_calls::{Filled, PageDown, PagedDown, page_down_at, page_down_under};
use clsm_words::Pace;
use std::alloc::Global;

impl<P: Pace> Store<P> {
    /// Fills the page at the time of the seat's open snapshot, or else at one of its own.
    fn read_down<R: Row>(
        &self,
        seat: &mut Seat,
        page: PageDown,
        filling: &mut Filling<'_, R>,
    ) -> PagedDown
        requires of { seat.old.store ≡ self.now }
        requires none { filling.old.count ≡ 0 }
        ensures answers { Answers seat.old seat.new result.time (page_deed page.bounds.lo page.bounds.hi 0 [] result.first) }
        ensures clock { IsAtClock seat.old seat.new result.time }
        ensures reached { result.time ≤ end_of (known_by seat.new) }
        ensures page { IsPageDown (known_by seat.new) result.time page.bounds.lo page.bounds.hi (length filling.old.rows.now)
            (map R.pair (take filling.new.count filling.new.rows.now)) result.more }
        ensures lock { TakesNoLock seat.old.tally seat.new.tally }
        ensures ready { AreFilled R.is_row filling.new.rows.now filling.new.count }
        ensures goes_on { FillsOn filling.old.rows 0 filling.new.rows filling.new.count }
    {
        let paged = match under(seat.pin, seat.snapshot) {
            None => page_down_at(&self.words, &mut seat.raw, seat.pin, page, filling),
            Some(open) => page_down_under(&self.words, &mut seat.raw, open, page, filling),
        };
        pass_read(&mut seat.pin);
        paged
    }

    /// The page downwards that fills the rows behind a reference.
    fn fill_down<R: Row>(
        &self,
        seat: &mut Seat,
        page: PageDown,
        filling: &mut Filling<'_, R>,
    ) -> Filled
        requires of { seat.old.store ≡ self.now }
        requires none { filling.old.count ≡ 0 }
        ensures page { FillsPageDown R.pair R.is_row seat.old seat.new page.bounds.lo page.bounds.hi filling.old.rows.now filling.new.rows.now result }
        ensures same_reference { filling.new.rows.ghost_name ≡ filling.old.rows.ghost_name }
    {
        let paged = self.read_down(seat, page, filling);
        let PagedDown { time, more, .. } = paged;
        let rows = filling.count;
        Filled { time, rows, more }
    }

    /// As many of the last pairs with `lo <= key <= hi` by falling key as there are rows, which it
    /// fills from the first one on, and the key of the next pair, if one is left out: up to there
    /// the next page downwards reaches. The rows behind those stay as they are. It reads at the
    /// time of the seat's open snapshot, else at a time of its own, as `get`; so only pages under
    /// one snapshot are of one map. It takes no memory and no lock, never waits and is never
    /// refused. It is recorded as a page of no rows, whose `more` is the range's first key.
    ///
    /// It costs about three times what the same page upwards does: it goes to the range's first
    /// keys, and then by scans of some 24 rows each from the upper end down. Where keys are spread
    /// unevenly, as where `hi` is far above all of them, it needs further scans for the first row,
    /// up to 64 and more.
    pub fn page_down_into<R: Row>(
        &self,
        alloc: Global,
        seat: &mut Seat,
        lo: Key,
        hi: Key,
        rows: &mut [R],
    ) -> Filled
        requires { seat.old.store ≡ self.now }
        ensures { FillsPageDown R.pair R.is_row seat.old seat.new lo hi rows.old rows.new result }
    {
        let page = PageDown {
            alloc,
            bounds: Bounds { lo, hi },
        };
        let mut filling = Filling { rows, count: 0 };
        self.fill_down(seat, page, &mut filling)
    }
}

impl<'a, P: Pace> Caller<'a, P> {
    /// As `Store::page_down_into`.
    pub fn page_down_into<R: Row>(
        &mut self,
        alloc: Global,
        lo: Key,
        hi: Key,
        rows: &mut [R],
    ) -> Filled
        ensures { FillsPageDown R.pair R.is_row self.old.seat self.new.seat lo hi rows.old rows.new result }
    {
        self.store
            .page_down_into(alloc, &mut self.seat, lo, hi, rows)
    }
}

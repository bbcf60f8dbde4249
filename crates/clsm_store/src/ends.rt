//! The ends of a range: its first row and its last, at one time.
ghost use Rattle.std.specs.Prelude.{◌≡◌, ◌≤◌, [], ◌∷◌, option_to_list, take};
ghost use Rattle.clsm_store.specs.Promises.{FindsFirst, FindsLast};

use crate::caller::Caller;
use crate::seat::Seat;
use crate::store::Store;
use clsm_model::{Key, Time, Value};
use clsm_store_calls::Filled;
use clsm_words::Pace;
use std::alloc::Global;

/// The answer of `first` and `last`: its time, and the row that it found, if a key of the range has
/// a value in the map of the writes below that.
#[derive(Clone, Copy, PartialEq, Eq, Debug)]
pub struct FoundRow {
    pub time: Time,
    pub row: Option<(u64, Value)>,
}

/// The row in the one place of a page, if it was filled.
fn found(filled: &Filled, place: &(u64, Value)) -> FoundRow
    requires { filled.now.rows ≤ 1 }
    ensures time { result.time ≡ filled.now.time }
    ensures row { option_to_list result.row ≡ take filled.now.rows (place.now ∷ []) }
{
    let time = filled.time;
    let row = if filled.rows == 0 { None } else { Some(*place) };
    FoundRow { time, row }
}

impl<P: Pace> Store<P> {
    /// The first key with `lo <= key <= hi` that has a value, and the value; `None` if no key there
    /// has one. It reads at the time of the seat's open snapshot, else at a time of its own, as
    /// `get`. It takes no memory and no lock, never waits and is never refused. It is recorded as a
    /// page of one row, and costs as much.
    pub fn first(&self, seat: &mut Seat, lo: Key, hi: Key) -> FoundRow
        requires { seat.old.store ≡ self.now }
        ensures { FindsFirst seat.old seat.new lo hi result }
    {
        let mut places = [(0, Value::from(0))];
        let filled = self.page_into(seat, lo, hi, &mut places);
        seat.show_records();
        found(&filled, &places[0])
    }

    /// The last key with `lo <= key <= hi` that has a value, and the value; `None` if no key there
    /// has one. It reads as `first`, but is recorded as a page of no rows, whose `more` is the
    /// range's first key. It costs as much as `page_down_into` with room for one row: more where
    /// `hi` is far above all keys.
    pub fn last(&self, alloc: Global, seat: &mut Seat, lo: Key, hi: Key) -> FoundRow
        requires { seat.old.store ≡ self.now }
        ensures { FindsLast seat.old seat.new lo hi result }
    {
        let mut places = [(0, Value::from(0))];
        let paged = self.page_down_into(alloc, seat, lo, hi, &mut places);
        found(&paged, &places[0])
    }
}

impl<'a, P: Pace> Caller<'a, P> {
    /// As `Store::first`.
    pub fn first(&mut self, lo: Key, hi: Key) -> FoundRow
        ensures { FindsFirst self.old.seat self.new.seat lo hi result }
    {
        self.store.first(&mut self.seat, lo, hi)
    }

    /// As `Store::last`.
    pub fn last(&mut self, alloc: Global, lo: Key, hi: Key) -> FoundRow
        ensures { FindsLast self.old.seat self.new.seat lo hi result }
    {
        self.store.last(alloc, &mut self.seat, lo, hi)
    }
}

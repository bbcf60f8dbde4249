//! A caller's seat at a store.
ghost use Rattle.std.specs.Prelude.{◌≡◌, MatchOption, None, Some};
ghost use Rattle.clsm_law.specs.Views.{next_word};

use clsm_model::{CallRecord, Deed, Time};
use clsm_store_calls::OpenSnapshot;
use clsm_words::RawSeat;
use std::marker::Model;

/// A caller's place at a store: each call is made by one of its seats. It may be moved to another
/// thread. Contracts see its store, its number, the beginning of the history that it knows, its
/// records, its due and its snapshot.
#[derive(Drop)]
pub struct Seat {
    pub(crate) raw: RawSeat,
    /// Its pin word: odd while a read runs.
    pub(crate) pin: u64,
    /// The time of its open snapshot.
    pub(crate) snapshot: Option<Time>,
}

/// Moves a pin word past a whole read, which moved it as it began and as it ended.
#[inline(always)]
pub(crate) fn pass_read(pin: &mut u64)
    ensures { pin.new ≡ next_word (next_word pin.old) }
{
    *pin = pin.wrapping_add(2);
}

/// The open snapshot as reads under it take it, if one is open: its time, with the pin word.
#[inline(always)]
pub(crate) fn under(pin_word: u64, snapshot: Option<Time>) -> Option<OpenSnapshot>
    ensures { MatchOption result (snapshot ≡ None) (λ held. (held.pin_word ≡ pin_word) × (snapshot ≡ Some held.time)) }
{
    let time = snapshot?;
    Some(OpenSnapshot { pin_word, time })
}

impl Model for Seat {
    ghost use Rattle.std.specs.Prelude.{◌≡◌};
    ghost use Rattle.clsm_law.specs.OpenSteps.{open_time};
    ghost use Rattle.clsm_store_calls.specs.Seats.{SeatState};
    ghost use Rattle.clsm_store_calls.specs.Resting.{IsAtRest, seat_of};

    ghost Value = { SeatState };

    ghost view = { λ s. seat_of s.raw };

    ghost invariant = { λ s. IsAtRest s.raw.knows × (s.pin ≡ s.raw.knows.view.pin) × (s.snapshot ≡ open_time s.raw.knows.view.snapshot) };
}

impl Seat {
    ghost use Rattle.std.specs.Prelude.{◌≡◌, ◌≤◌, ◌^◌};
    ghost use Rattle.clsm_law.specs.Relation.{call_of};
    ghost use Rattle.clsm_store_calls.specs.Seats.{IsLawfulAlone};

    /// Its number, from 0 to the number of seats less 1.
    #[inline]
    pub fn number(&self) -> u32
        ensures { result ≡ self.now.number }
    {
        self.raw.show_invariant();
        self.raw.number() as u32
    }

    /// The time of its open snapshot, if one is open.
    #[inline]
    pub fn snapshot_time(&self) -> Option<Time>
        ensures { result ≡ self.now.snapshot }
    {
        self.snapshot
    }

    /// The record of a call that this seat made: its answer's time, and what it did, with its
    /// arguments and its answer. A program that keeps one for each answered call, in their order,
    /// has the seat's calls as contracts see them, which is what an audit takes.
    pub fn record_of(&self, time: Time, deed: Deed) -> CallRecord
        ensures { result ≡ call_of self.now.number time deed }
    {
        let seat = self.number();
        CallRecord { seat, time, deed }
    }

    /// Shows what holds of every seat: each of its writes stands in the history that it knows, each
    /// write there with its number is one of its records, what it read is right and at no time
    /// strictly inside a batch, each of its batches is listed there, and its records' times rise to
    /// its due. It does nothing when it runs.
    #[inline]
    pub fn show_records(&self)
        ensures { IsLawfulAlone self.now }
    {
        self.raw.show_invariant();
    }

    /// Shows what holds of every seat: its due is at most 2^62, at which times end; so each of its
    /// writes stands below that, and each of its reads at it or below. It does nothing when it
    /// runs.
    #[inline]
    pub fn show_due(&self)
        ensures { self.now.due ≤ 2 ^ 62 }
    {
        self.raw.show_invariant();
    }
}

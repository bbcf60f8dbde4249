//! The shared words on their table, and who holds a seat at them: a caller, the merger, or a
//! message.
ghost use Rattle.std.specs.Prelude.{◌≡◌, ◌*◌};
ghost use Rattle.clsm_law.specs.Layout.{size_of};
ghost use Rattle.clsm_words.specs.Starts.{starts_of};

use crate::divisor::Divisors;
use crate::known::Known;
use crate::pace::Pace;
use crate::rule::Law;
use atomic_table::{Seat, Table};
use clsm_law::Layout;
use std::alloc::Global;
use std::marker::Model;

mod batching;
mod cells;
mod meet;
mod merging;
mod open;
mod pins;
mod raw;
mod steps;
mod writes;

/// The places of runs.
const PLACES: usize = 5;

/// The words on their table. Contracts see which table it is, and its layout.
#[derive(Drop)]
pub struct WordTable {
    pub(crate) table: Table<u64, Known, Layout, Law, Global>,
    pub layout: Layout,
    pub(crate) divisors: Divisors,
    /// Where each place begins.
    pub(crate) starts: [u64; PLACES],
    pub ghost sized: { (table.shared.table_id.words ≡ size_of layout) × (table.shared.key ≡ layout) },
    pub ghost divided: { (divisors.region ≡ layout.cells) × (divisors.ring ≡ 2 * layout.cells) × (divisors.chains ≡ layout.chains) },
    pub ghost started: { starts ≡ starts_of layout },
}

/// The words that the seats share, and the pace that is called before each step on them.
#[derive(Drop)]
pub struct Words<P: Pace> {
    words: WordTable,
    pace: P,
}

impl<P: Pace> Model for Words<P> {
    ghost use Rattle.clsm_words.specs.declared.words.WordTable.{WordTable};

    ghost Value = { WordTable };

    ghost view = { λ w. w.words };
}

impl<P: Pace> Words<P> {
    ghost use Rattle.clsm_law.specs.Memory.{room_of};

    /// The cells of one region.
    #[inline(always)]
    pub fn cells(&self) -> u64
        ensures { result ≡ self.now.layout.cells }
    {
        self.words.layout.cells
    }

    /// The callers' seats.
    #[inline(always)]
    pub fn seats(&self) -> u64
        ensures { result ≡ self.now.layout.seats }
    {
        self.words.layout.seats
    }

    /// How often a reader looks again at an undecided time before it cancels it.
    #[inline(always)]
    pub fn patience(&self) -> u64
        ensures { result ≡ self.now.layout.patience }
    {
        self.words.layout.patience
    }

    /// The chains of one region.
    #[inline(always)]
    pub fn chains(&self) -> u64
        ensures { result ≡ self.now.layout.chains }
    {
        self.words.layout.chains
    }

    /// The entries that a place has room for.
    #[inline(always)]
    pub fn room_of(&self, place: u64) -> u64
        ensures { result ≡ room_of self.now.layout place }
    {
        self.words.layout.room_of(place)
    }

    /// The pace of the steps.
    pub fn pace(&self) -> &P {
        &self.pace
    }
}

/// How the keys stand in a run, as a search found them: a guess, which may be anything.
#[derive(Clone, Copy)]
pub struct Guide {
    /// How many entries the run had.
    pub count: u64,
    /// Its first key and its last.
    pub first: u64,
    pub last: u64,
    /// How many entries stand to one key, times 2^64.
    pub slope: u64,
}

impl Guide {
    /// That of no run.
    pub const NONE: Guide = Guide {
        count: 0,
        first: 0,
        last: 0,
        slope: 0,
    };
}

/// A caller's seat at the words. Contracts see which words they are, and what the seat knows.
#[derive(Drop)]
pub struct RawSeat {
    pub(crate) seat: Seat<u64, Known>,
    pub(crate) number: u64,
    /// What searches of runs left for later ones, for each place.
    pub(crate) guides: [Guide; PLACES],
}

impl Model for RawSeat {
    ghost use Rattle.std.specs.Prelude.{◌≡◌};
    ghost use Rattle.clsm_words.specs.Seats.{RawState};
    ghost use Rattle.clsm_words.specs.Knowing.{Sound};

    ghost Value = { RawState };

    ghost view = { λ s. record { table = s.seat.table_id; knows = s.seat.me.0 } };

    ghost invariant = { λ s. (s.number ≡ s.seat.me.0.number) × Sound s.seat.me.0 };
}

impl RawSeat {
    ghost use Rattle.std.specs.Prelude.{◌≡◌};
    ghost use Rattle.clsm_words.specs.Knowing.{Sound};

    /// Its number.
    #[inline]
    pub fn number(&self) -> u64
        ensures { result ≡ self.now.knows.number }
    {
        self.number
    }

    /// The guide that was left for the run at this place.
    #[inline(always)]
    pub fn guide(&self, place: u64) -> Guide {
        self.guides[(place as usize).min(PLACES - 1)]
    }

    /// Leaves the guide for the run at this place.
    #[inline(always)]
    pub fn leave_guide(&mut self, place: u64, guide: Guide)
        ensures { self.new ≡ self.old }
    {
        self.guides[(place as usize).min(PLACES - 1)] = guide;
    }

    /// Shows what holds of every seat. It does nothing when it runs.
    #[inline]
    pub fn show_invariant(&self)
        ensures { Sound self.now.knows }
    {
        let _ = &self.seat;
    }
}

/// The merger's seat at the words, the first of all.
#[derive(Drop)]
pub struct RawMerger {
    pub(crate) seat: Seat<u64, Known>,
}

impl Model for RawMerger {
    ghost use Rattle.std.specs.Prelude.{◌≡◌};
    ghost use Rattle.clsm_words.specs.Seats.{RawState};
    ghost use Rattle.clsm_words.specs.Merging.{IsSoundMerger};

    ghost Value = { RawState };

    ghost view = { λ s. record { table = s.seat.table_id; knows = s.seat.me.0 } };

    ghost invariant = { λ s. IsSoundMerger s.seat.me.0 };
}

impl RawMerger {
    ghost use Rattle.clsm_words.specs.Merging.{IsSoundMerger};

    /// Shows what holds of the merger's seat. It does nothing when it runs.
    #[inline]
    pub fn show_invariant(&self)
        ensures { IsSoundMerger self.now.knows }
    {
        let _ = &self.seat;
    }
}

/// What a seat knew of the past. It has no bytes. Contracts see which words it is of, the beginning
/// of the history, as its slots and its batches, and the due.
#[derive(Drop)]
pub struct Message {
    pub(crate) seat: Seat<u64, Known>,
}

impl Model for Message {
    ghost use Rattle.std.specs.Prelude.{◌≡◌, false, []};
    ghost use Rattle.clsm_words.specs.Seats.{MessageState};

    ghost Value = { MessageState };

    ghost view = { λ m. record { table = m.seat.table_id; told = m.seat.me.0.told; batches = m.seat.me.0.told_batches; heard = m.seat.me.0.heard } };

    ghost invariant = { λ m. (m.seat.me.0.seated ≡ false) × (m.seat.me.0.merges ≡ false) × (m.seat.me.1 ≡ []) };
}

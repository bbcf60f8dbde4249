//! Where an entry stands in its run, and where the one that is sought may still be.
ghost use Rattle.std.specs.Prelude.{◌≡◌, ◌<◌, ◌≤◌, None};

use clsm_model::Key;
use clsm_words::{Guide, RawSeat};
use std::num::{nearest_u64_to_f64, saturating_f64_to_u64};

/// Where an entry stands to the first of a key with a time below a bound.
#[derive(Clone, Copy)]
pub(crate) enum Side {
    /// Before it; this is its key.
    Before(u64),
    /// It is of the key, with a time below the bound, and this is its time word.
    Hit(u64),
    /// Behind each entry of the key; this is its key.
    Behind(u64),
}

/// So many looks are made by guesses; all further ones halve.
const GUESSES: u32 = 8;

/// How a search goes on in a span. Where keys stand evenly, each guess is nearer by far than the
/// one before. Else the span is halved behind a few of them, so the looks are at most those of a
/// search by halving and a few more.
#[derive(Clone, Copy)]
pub(crate) struct Turn {
    /// The last entry that was looked at stands before the span, and is not its end.
    pub(crate) is_before: bool,
    pub(crate) looks: u32,
    /// How many entries stand to one key, times 2^64.
    pub(crate) slope: u64,
}

impl Turn {
    /// The turn before the first look at a run whose keys the guide says to stand so.
    #[inline(always)]
    pub(crate) fn first(guide: &Guide) -> Turn {
        Turn {
            is_before: true,
            looks: 0,
            slope: guide.slope,
        }
    }

    /// The turn behind a look.
    #[inline(always)]
    pub(crate) fn after(self, is_before: bool) -> Turn {
        Turn {
            is_before,
            looks: self.looks.saturating_add(1),
            slope: self.slope,
        }
    }

    /// The turn behind the last look at the run at this place. Where guesses led nowhere, the seat
    /// keeps its guide no longer.
    #[inline(always)]
    pub(crate) fn end(self, seat: &mut RawSeat, place: u64)
        ensures { seat.new ≡ seat.old }
    {
        if self.looks > GUESSES {
            seat.leave_guide(place, Guide::NONE);
        }
    }
}

/// How many entries stand to one key, times 2^64, where so many stand between these keys.
#[inline(always)]
pub(crate) fn slope(count: u64, first: u64, last: u64) -> u64 {
    let entries = nearest_u64_to_f64(count);
    let keys = nearest_u64_to_f64(last.saturating_sub(first)) + 1.0;
    saturating_f64_to_u64(entries / keys * 18_446_744_073_709_551_616.0)
}

/// How many entries stand to so many keys by the slope, which is that of one key times 2^64.
#[inline(always)]
fn entries_to(keys: u64, slope: u64) -> u64 {
    ((keys as u128 * slope as u128) >> 64) as u64
}

/// The entries of a run among which the one that is sought may still be.
#[derive(Clone, Copy)]
pub(crate) struct Span {
    /// The first of them, and the first behind them.
    pub(crate) low: u64,
    pub(crate) high: u64,
    /// The entry at `high`, by its number and its time word, where it is of the key with a time
    /// below the bound.
    pub(crate) hit: Option<(u64, u64)>,
    /// Bounds of their keys.
    pub(crate) low_key: u64,
    pub(crate) high_key: u64,
}

impl Span {
    /// All entries of a run with so many, which guesses say to stand between these keys.
    #[inline(always)]
    pub(crate) fn whole(count: u64, guide: &Guide) -> Span
        ensures { result ≡ record { low = 0; high = count; hit = None; low_key = guide.now.first; high_key = guide.now.last } }
    {
        Span {
            low: 0,
            high: count,
            hit: None,
            low_key: guide.first,
            high_key: guide.last,
        }
    }

    /// The entry to look at next.
    #[inline(always)]
    pub(crate) fn next(&self, key: Key, turn: Turn) -> u64
        requires { self.now.low < self.now.high }
        ensures { (self.now.low ≤ result) × (result < self.now.high) }
    {
        let last = self.high - 1;
        let others = last - self.low;
        if turn.looks >= GUESSES {
            return self.low + others / 2;
        }
        if turn.is_before {
            let keys = key.saturating_sub(self.low_key);
            self.low + entries_to(keys, turn.slope).min(others)
        } else {
            let keys = self.high_key.saturating_sub(key);
            last - entries_to(keys, turn.slope).min(others)
        }
    }
}

//! What a read of many keys loads ahead, for nobody: so that waits for entries of large runs
//! overlap.
//!
//! A search of a run looks where the seat's guide guesses the key to stand, guesses anew by what it
//! finds there, and so on: each look waits for the one before. Here the first looks of many
//! searches are made ahead, side by side. They are no steps, and nothing follows from what they
//! find.
ghost use Rattle.std.specs.Prelude.{◌<◌};

use crate::places::Keyed;
use clsm_law::{Word, level_one_place};
use clsm_levels::level_zero_runs;
use clsm_model::Key;
use clsm_words::{Guide, Pace, RawSeat, Words};

/// So many keys are loaded ahead at once.
pub(crate) const GROUP: usize = 16;

/// Runs with fewer entries stay in a processor's cache: their loads ahead would cost more than they
/// save.
const LARGE: u64 = 1 << 15;

/// An entry's key, of its words.
const KEY: u64 = 0;

/// How many entries stand to so many keys by the slope, which is that of one key times 2^64.
#[inline(always)]
fn entries_to(keys: u64, slope: u64) -> u64 {
    ((keys as u128 * slope as u128) >> 64) as u64
}

/// Searches of the run at a place, whose keys the guide guesses to stand so.
#[derive(Clone, Copy)]
struct Searches {
    place: u64,
    guide: Guide,
}

impl Searches {
    /// Loads the key of the entry for nobody, and answers it; where the run has no room for such an
    /// entry, 0.
    #[inline(always)]
    fn load<P: Pace>(&self, words: &Words<P>, entry: u64) -> Key
        requires { self.now.place < 5 }
    {
        let (place, part) = (self.place, KEY);
        if entry >= words.room_of(place) {
            return 0;
        }
        words.peek(Word::Entry { place, entry, part })
    }

    /// The entry at which the search for the key looks first.
    #[inline(always)]
    fn first(&self, key: Key) -> u64 {
        let keys = key.saturating_sub(self.guide.first);
        let last = self.guide.count.saturating_sub(1);
        entries_to(keys, self.guide.slope).min(last)
    }

    /// The entry at which it looks behind this one, which has the key `found`.
    #[inline(always)]
    fn next(&self, key: Key, entry: u64, found: Key) -> u64 {
        let step = entries_to(key.abs_diff(found), self.guide.slope).saturating_add(1);
        if found < key {
            entry.saturating_add(step)
        } else {
            entry.saturating_sub(step)
        }
    }

    /// Loads what the searches for the keys look at first.
    fn load_first<P: Pace, K: Keyed>(&self, words: &Words<P>, keys: &[K])
        requires { self.now.place < 5 }
    {
        for ask in keys {
            self.load(words, self.first(ask.key()));
        }
    }

    /// Loads what they look at next.
    fn load_next<P: Pace, K: Keyed>(&self, words: &Words<P>, keys: &[K])
        requires { self.now.place < 5 }
    {
        for ask in keys {
            let key = ask.key();
            let first = self.first(key);
            let found = self.load(words, first);
            self.load(words, self.next(key, first, found));
        }
    }
}

/// Loads ahead for searches of the run at the place, if it is a large one.
fn load_in_run<P: Pace, K: Keyed>(words: &Words<P>, seat: &RawSeat, place: u64, keys: &[K])
    requires { place < 5 }
{
    let guide = seat.guide(place);
    if guide.count < LARGE {
        return;
    }
    let searches = Searches { place, guide };
    searches.load_first(words, keys);
    searches.load_next(words, keys);
}

/// Loads ahead for searches of the component's runs for the first ones of the keys. (It is kept
/// apart from what each key needs.)
#[inline(never)]
pub(crate) fn load_ahead<P: Pace, K: Keyed>(
    words: &Words<P>,
    seat: &RawSeat,
    component: u64,
    keys: &[K],
) {
    let first = &keys[..keys.len().min(GROUP)];
    for place in 0..level_zero_runs(component) {
        load_in_run(words, seat, place, first);
    }
    load_in_run(words, seat, level_one_place(component), first);
}

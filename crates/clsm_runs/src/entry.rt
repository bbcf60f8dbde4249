//! Looks at the runs of the component that the seat holds.
ghost use Rattle.std.specs.Prelude.{◌≡◌, ◌≢◌, ◌*◌, ◌%◌, ◌<◌, ◌≤◌, true, nat_lt};
ghost use Rattle.std.proofs.Common.{ap};
ghost use Rattle.clsm_levels.specs.declared.entry.Entry.{Entry};
ghost use Rattle.clsm_law.specs.Places.{entry_in};
ghost use Rattle.clsm_words.specs.Knowing.{row_of};
ghost use Rattle.clsm_words.specs.Keeping.{LooksAside};
ghost use Rattle.clsm_words.specs.Plays.{IsSeatOf};
ghost use Rattle.clsm_words.proofs.Keeps.{aside_trans};
ghost use Rattle.clsm_runs.specs.Searching.{HasEntry, IsSearchable, count_of, entry_word};
ghost use Rattle.clsm_runs.specs.Staying.{entry_in_stays, has_stays, valued_stays};

use clsm_law::Word;
use clsm_model::Time;
use clsm_words::{Load, Pace, RawSeat, Words};

/// An entry's words: its key.
pub(crate) const KEY: u64 = 0;
/// Twice its time, plus 1 for a removal.
pub(crate) const TIME: u64 = 1;
/// The number of its value's words.
pub(crate) const LENGTH: u64 = 2;
/// The first of those.
pub(crate) const VALUE: u64 = 3;

/// The run at a place of the component that the seat holds.
#[derive(Clone, Copy)]
pub struct HeldRun {
    pub component: u64,
    pub place: u64,
}

impl HeldRun {
    /// Whether all times in the component's runs are below `until`: they are below its first time.
    #[inline(always)]
    pub(crate) fn is_below<P: Pace>(self, words: &Words<P>, until: Time) -> bool
        ensures { result ≡ true → self.component * words.now.layout.cells ≤ until }
    {
        match self.component.checked_mul(words.cells()) {
            Some(first) => first <= until,
            None => false,
        }
    }
}

/// One of its entries.
#[derive(Clone, Copy)]
pub(crate) struct HeldEntry {
    pub(crate) run: HeldRun,
    pub(crate) entry: u64,
}

/// An entry of the run at a place.
#[derive(Clone, Copy)]
pub(crate) struct PlacedEntry {
    pub(crate) place: u64,
    pub(crate) entry: u64,
}

/// How many entries the run has.
#[inline(always)]
pub(crate) fn count<P: Pace>(words: &Words<P>, seat: &mut RawSeat, run: HeldRun) -> u64
    requires of { IsSeatOf words.now seat.old }
    requires run { IsSearchable seat.old.knows run.component run.place }
    ensures of { IsSeatOf words.now seat.new }
    ensures looks { LooksAside seat.old.knows seat.new.knows }
    ensures told { result ≡ count_of seat.old.knows run.place }
{
    seat.show_invariant();
    words.look(seat, Word::Count(run.place))
}

impl HeldEntry {
    /// One of its words.
    #[inline(always)]
    pub(crate) fn part<P: Pace>(self, words: &Words<P>, seat: &mut RawSeat, part: u64) -> u64
        requires of { IsSeatOf words.now seat.old }
        requires has { HasEntry seat.old.knows self.run.component self.run.place self.entry }
        requires inside { part < 11 }
        ensures of { IsSeatOf words.now seat.new }
        ensures looks { LooksAside seat.old.knows seat.new.knows }
        ensures told { result ≡ entry_word seat.old.knows self.run.place self.entry part }
    {
        seat.show_invariant();
        let (place, entry) = (self.run.place, self.entry);
        words.look(seat, Word::Entry { place, entry, part })
    }

    /// Whether its time is below `until`. It is looked at only where not all times of the run are.
    #[inline(always)]
    pub(crate) fn is_below<P: Pace>(
        self,
        words: &Words<P>,
        seat: &mut RawSeat,
        until: Time,
        are_all: bool,
    ) -> bool
        requires of { IsSeatOf words.now seat.old }
        requires has { HasEntry seat.old.knows self.run.component self.run.place self.entry }
        requires all { are_all ≡ true → (entry_in (row_of seat.old.knows) self.run.place self.entry).time < until }
        ensures of { IsSeatOf words.now seat.new }
        ensures looks { LooksAside seat.old.knows seat.new.knows }
        ensures told { result ≡ nat_lt (entry_in (row_of seat.old.knows) self.run.place self.entry).time until }
    {
        if are_all {
            return true;
        }
        self.part(words, seat, TIME) / 2 < until
    }
}

/// The value of an entry that is no removal.
impl Load<RawSeat> for HeldEntry {
    ghost stands = { λ words seat at. IsSeatOf words seat × HasEntry seat.knows at.run.component at.run.place at.entry
        × (entry_word seat.knows at.run.place at.entry 1 % 2 ≢ 1) };

    ghost value = { λ seat at. (entry_in (row_of seat.knows) at.run.place at.entry).value };

    ghost looks = { λ words a b. IsSeatOf words b × LooksAside a.knows b.knows };

    #[inline(always)]
    fn length<P: Pace>(&self, words: &Words<P>, seat: &mut RawSeat) -> usize {
        seat.show_invariant();
        self.part(words, seat, LENGTH) as usize
    }

    #[inline(always)]
    fn word<P: Pace>(&self, words: &Words<P>, seat: &mut RawSeat, index: usize) -> u64 {
        self.part(words, seat, VALUE + index as u64)
    }

    ghost stands_on = { λ words a b at is looks. (
      looks.0,
      has_stays a.knows b.knows at.run.component at.run.place at.entry looks.1.looks is.1,
      valued_stays a.knows b.knows at.run.component at.run.place at.entry looks.1.looks is.1.run is.2,
    ) };

    ghost value_stays = { λ words a b at is looks. ap (λ (e : Entry). e.value)
        (entry_in_stays a.knows b.knows at.run.component at.run.place at.entry looks.1.looks is.1.run) };

    ghost looks_on = { λ words a b c first then. (then.0, aside_trans a.knows b.knows c.knows first.1 then.1) };
}

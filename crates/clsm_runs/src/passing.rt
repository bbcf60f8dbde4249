//! A passage of one run by rising key: it is begun at a key, and goes on from entry to entry.
ghost use Rattle.std.specs.Prelude.{◌≡◌, ◌∷◌, [], IfSome, Some, is_some, true};
ghost use Rattle.clsm_levels.specs.Entry.{first_below};
ghost use Rattle.clsm_levels.specs.Yields.{IsNextFrom, behind};
ghost use Rattle.clsm_law.specs.Places.{entry_in, is_named};
ghost use Rattle.clsm_words.specs.Keeping.{LooksAside};
ghost use Rattle.clsm_words.specs.Knowing.{row_of};
ghost use Rattle.clsm_words.specs.Plays.{IsSeatOf};
ghost use Rattle.clsm_runs.specs.Passing.{IsPassageFrom, IsPassed, passed_entry};
ghost use Rattle.clsm_runs.specs.Searching.{run_at};

use crate::entry::{HeldEntry, HeldRun, KEY, TIME, count};
use crate::finding::Wanted;
use clsm_model::{Key, Time, Value};
use clsm_words::{Pace, RawSeat, Words, load_value, load_word};

/// How far a passage of a run has come: to the entry at the position, of so many; and whether all
/// times in its component's runs are below the time that it is for.
#[derive(Clone, Copy)]
pub struct Passage {
    pub position: u64,
    pub count: u64,
    pub are_all: bool,
}

impl Passage {
    /// The passage of no entry.
    pub const NONE: Passage = Passage {
        position: 0,
        count: 0,
        are_all: false,
    };
}

/// An entry of a run that a passage came by: its number and its key.
#[derive(Clone, Copy)]
pub struct Passed {
    number: u64,
    pub key: Key,
}

/// The versions that a passage seeks: those below `until` of the keys from `from` on.
#[derive(Clone, Copy)]
pub struct Sought {
    pub from: u64,
    pub until: Time,
}

impl HeldRun {
    /// The passage of the run, which the held component names, from the first entry of the key
    /// `from` with a time below `until` on; where there is none, from the first of a greater key,
    /// or the run's end. The search is that of `find`, and no value is read. It never waits, takes
    /// no memory and is never refused.
    pub fn seek<P: Pace>(self, words: &Words<P>, seat: &mut RawSeat, sought: Sought) -> Passage
        requires of { IsSeatOf words.now seat.old }
        requires held { seat.old.knows.view.held ≡ Some self.component }
        requires named { is_named self.component self.place ≡ true }
        ensures of { IsSeatOf words.now seat.new }
        ensures looks { LooksAside seat.old.knows seat.new.knows }
        ensures stands { IsPassageFrom seat.old.knows self sought.until sought.from result }
    {
        let Sought { from: key, until } = sought;
        let position = Wanted { key, until }.bound(words, seat, self).low;
        Passage {
            position,
            count: count(words, seat, self),
            are_all: self.is_below(words, until),
        }
    }

    /// Of the entries from the position on, the newest that is sought of the least key that has
    /// one. The position goes on behind it, or to the run's end where there is none. Versions not
    /// below `until`, and those of keys below `from`, are passed one by one. No value is read, nor
    /// a time where all times in the component's runs are below `until`. It never waits, takes no
    /// memory and is never refused.
    #[inline(always)]
    pub fn next<P: Pace>(
        self,
        words: &Words<P>,
        seat: &mut RawSeat,
        passage: &mut Passage,
        sought: Sought,
    ) -> Option<Passed>
        requires of { IsSeatOf words.now seat.old }
        requires held { seat.old.knows.view.held ≡ Some self.component }
        requires named { is_named self.component self.place ≡ true }
        requires stands { IsPassageFrom seat.old.knows self sought.until sought.from passage.old }
        ensures of { IsSeatOf words.now seat.new }
        ensures looks { LooksAside seat.old.knows seat.new.knows }
        ensures passed { IfSome result (IsPassed seat.new.knows self.component self.place) }
        ensures next { IsNextFrom (λ key. first_below (run_at seat.old.knows self.place) key sought.until) sought.from
            (passed_entry seat.new.knows self.place result) }
        ensures stands { IsPassageFrom seat.old.knows self sought.until (behind sought.from (passed_entry seat.new.knows self.place result)) passage.new }
    {
        seat.show_invariant();
        while passage.position < passage.count {
            let number = passage.position;
            passage.position += 1;
            let at = HeldEntry {
                run: self,
                entry: number,
            };
            let key = at.part(words, seat, KEY);
            if key < sought.from {
                continue;
            }
            if at.is_below(words, seat, sought.until, passage.are_all) {
                return Some(Passed { number, key });
            }
        }
        None
    }

    /// Whether an entry that was passed has a value, which a removal has not. It never waits, takes
    /// no memory and is never refused.
    #[inline(always)]
    pub fn has_value<P: Pace>(self, words: &Words<P>, seat: &mut RawSeat, passed: &Passed) -> bool
        requires of { IsSeatOf words.now seat.old }
        requires passed { IsPassed seat.old.knows self.component self.place passed.now }
        ensures of { IsSeatOf words.now seat.new }
        ensures looks { LooksAside seat.old.knows seat.new.knows }
        ensures has { result ≡ is_some (entry_in (row_of seat.old.knows) self.place passed.now.number).value }
    {
        let entry = passed.number;
        HeldEntry { run: self, entry }.part(words, seat, TIME) % 2 != 1
    }

    /// The word of the value of an entry that was passed, which is no removal, if that is its only
    /// one. It never waits, takes no memory and is never refused.
    #[inline(always)]
    pub fn word_alone<P: Pace>(
        self,
        words: &Words<P>,
        seat: &mut RawSeat,
        passed: &Passed,
    ) -> Option<u64>
        requires of { IsSeatOf words.now seat.old }
        requires passed { IsPassed seat.old.knows self.component self.place passed.now }
        requires sets { is_some (entry_in (row_of seat.old.knows) self.place passed.now.number).value ≡ true }
        ensures of { IsSeatOf words.now seat.new }
        ensures looks { LooksAside seat.old.knows seat.new.knows }
        ensures told { IfSome result (λ word. (entry_in (row_of seat.old.knows) self.place passed.now.number).value ≡ Some (word ∷ [])) }
    {
        let entry = passed.number;
        load_word(words, seat, &HeldEntry { run: self, entry })
    }

    /// The value of an entry that was passed, which is no removal. It never waits, takes no memory
    /// and is never refused.
    #[inline(never)]
    pub fn value<P: Pace>(self, words: &Words<P>, seat: &mut RawSeat, passed: &Passed) -> Value
        requires of { IsSeatOf words.now seat.old }
        requires passed { IsPassed seat.old.knows self.component self.place passed.now }
        requires sets { is_some (entry_in (row_of seat.old.knows) self.place passed.now.number).value ≡ true }
        ensures of { IsSeatOf words.now seat.new }
        ensures looks { LooksAside seat.old.knows seat.new.knows }
        ensures told { (entry_in (row_of seat.old.knows) self.place passed.now.number).value ≡ Some result }
    {
        let entry = passed.number;
        load_value(words, seat, &HeldEntry { run: self, entry })
    }
}

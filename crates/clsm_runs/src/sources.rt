//! Looks of the merger at the merged runs.
ghost use Rattle.std.specs.Prelude.{◌≡◌, ◌≢◌, ◌%◌, ◌<◌};
ghost use Rattle.std.proofs.Common.{ap};
ghost use Rattle.clsm_words.proofs.Changing.{changes_trans};
ghost use Rattle.clsm_law.specs.Places.{entry_in};
ghost use Rattle.clsm_levels.specs.declared.entry.Entry.{Entry};
ghost use Rattle.clsm_levels.specs.Entry.{is_removal};
ghost use Rattle.clsm_levels.specs.Version.{version_of};
ghost use Rattle.clsm_words.specs.Changing.{Changes, NoWord};
ghost use Rattle.clsm_words.specs.Knowing.{row_of};
ghost use Rattle.clsm_words.specs.Plays.{IsSeatOf};
ghost use Rattle.clsm_runs.specs.Placing.{IsMergedEntry};
ghost use Rattle.clsm_runs.specs.Searching.{entry_word};
ghost use Rattle.clsm_runs.specs.Staying.{merged_entry_stays, merged_stays, merged_valued_stays};

use crate::entry::{KEY, LENGTH, PlacedEntry, TIME, VALUE};
use clsm_law::Word;
use clsm_levels::Version;
use clsm_model::Value;
use clsm_words::{Load, Pace, RawMerger, Words, load_value};

impl PlacedEntry {
    /// One of the words of the entry.
    fn part<P: Pace>(self, words: &Words<P>, merger: &mut RawMerger, part: u64) -> u64
        requires of { IsSeatOf words.now merger.old }
        requires has { IsMergedEntry merger.old.knows self.place self.entry }
        requires inside { part < 11 }
        ensures of { IsSeatOf words.now merger.new }
        ensures looks { Changes NoWord merger.old.knows merger.new.knows }
        ensures told { result ≡ entry_word merger.old.knows self.place self.entry part }
    {
        merger.show_invariant();
        let PlacedEntry { place, entry } = self;
        words.look_as_merger(merger, Word::Entry { place, entry, part })
    }

    /// The entry there, without its value.
    pub(crate) fn version<P: Pace>(self, words: &Words<P>, merger: &mut RawMerger) -> Version
        requires of { IsSeatOf words.now merger.old }
        requires has { IsMergedEntry merger.old.knows self.place self.entry }
        ensures of { IsSeatOf words.now merger.new }
        ensures looks { Changes NoWord merger.old.knows merger.new.knows }
        ensures told { result ≡ version_of (entry_in (row_of merger.old.knows) self.place self.entry) }
    {
        let key = self.part(words, merger, KEY);
        let spelled = self.part(words, merger, TIME);
        Version {
            key,
            time: spelled / 2,
            is_removal: spelled % 2 == 1,
        }
    }

    /// Its value: none where it is a removal.
    pub(crate) fn value<P: Pace>(
        self,
        words: &Words<P>,
        merger: &mut RawMerger,
        removes: bool,
    ) -> Option<Value>
        requires of { IsSeatOf words.now merger.old }
        requires has { IsMergedEntry merger.old.knows self.place self.entry }
        requires removes { is_removal (entry_in (row_of merger.old.knows) self.place self.entry) ≡ removes }
        ensures of { IsSeatOf words.now merger.new }
        ensures looks { Changes NoWord merger.old.knows merger.new.knows }
        ensures told { result ≡ (entry_in (row_of merger.old.knows) self.place self.entry).value }
    {
        if removes {
            return None;
        }
        Some(load_value(words, merger, &self))
    }
}

/// The value of an entry that is no removal, of a merged run.
impl Load<RawMerger> for PlacedEntry {
    ghost stands = { λ words merger at. IsSeatOf words merger × IsMergedEntry merger.knows at.place at.entry
        × (entry_word merger.knows at.place at.entry 1 % 2 ≢ 1) };

    ghost value = { λ merger at. (entry_in (row_of merger.knows) at.place at.entry).value };

    ghost looks = { λ words a b. IsSeatOf words b × Changes NoWord a.knows b.knows };

    #[inline]
    fn length<P: Pace>(&self, words: &Words<P>, merger: &mut RawMerger) -> usize {
        merger.show_invariant();
        self.part(words, merger, LENGTH) as usize
    }

    #[inline]
    fn word<P: Pace>(&self, words: &Words<P>, merger: &mut RawMerger, index: usize) -> u64 {
        self.part(words, merger, VALUE + index as u64)
    }

    ghost stands_on = { λ words a b at is looks. (
      looks.0,
      merged_stays a.knows b.knows at.place at.entry looks.1 is.1,
      merged_valued_stays a.knows b.knows at.place at.entry looks.1 is.2,
    ) };

    ghost value_stays = { λ words a b at is looks. ap (λ (e : Entry). e.value) (merged_entry_stays a.knows b.knows at.place at.entry looks.1) };

    ghost looks_on = { λ words a b c first then. (then.0, changes_trans NoWord a.knows b.knows c.knows first.1 then.1) };
}

//! Writes at a place that no reader searches.
ghost use Rattle.std.specs.Prelude.{◌≡◌, ℕ, ◌+◌, ◌^◌, ◌<◌, ◌≤◌, true, slice_index_or, length};
ghost use Rattle.clsm_law.specs.declared.word.Word.TheVariants.{Entry as EntryWord};
ghost use Rattle.clsm_law.specs.Places.{entry_in};
ghost use Rattle.clsm_law.specs.Worlds.{is_canonical};
ghost use Rattle.clsm_words.specs.Knowing.{row_of};
ghost use Rattle.clsm_words.specs.Plays.{IsSeatOf};
ghost use Rattle.clsm_words.specs.Changing.{Changes, NoWord};
ghost use Rattle.clsm_runs.specs.Placing.{MayWriteInto, IsOfEntry, IsPart, spelling, value_list};

use crate::entry::{KEY, LENGTH, PlacedEntry, TIME, VALUE};
use clsm_law::Word;
use clsm_levels::Entry;
use clsm_words::{Pace, RawMerger, Words};

impl PlacedEntry {
    /// Writes one of the words of the entry, unless it is there: a look costs less than a write.
    fn write<P: Pace>(self, words: &Words<P>, merger: &mut RawMerger, part: u64, word: u64)
        requires of { IsSeatOf words.now merger.old }
        requires free { MayWriteInto merger.old.knows self.place self.entry }
        requires inside { part < 11 }
        ensures of { IsSeatOf words.now merger.new }
        ensures changes { Changes (IsPart self.place self.entry part) merger.old.knows merger.new.knows }
        ensures made { row_of merger.new.knows (EntryWord self.place self.entry part) ≡ word }
    {
        merger.show_invariant();
        let PlacedEntry { place, entry } = self;
        let at = Word::Entry { place, entry, part };
        if words.look_as_merger(merger, at) != word {
            words.write_run(merger, at, word);
        }
    }
}

/// Writes the words of the entry's value, and 0 behind them.
fn write_words<P: Pace>(words: &Words<P>, merger: &mut RawMerger, at: PlacedEntry, value: &[u64])
    requires of { IsSeatOf words.now merger.old }
    requires free { MayWriteInto merger.old.knows at.place at.entry }
    ensures of { IsSeatOf words.now merger.new }
    ensures changes { Changes (IsOfEntry at.place at.entry) merger.old.knows merger.new.knows }
    ensures made { (j : ℕ) → j < 8 → row_of merger.new.knows (EntryWord at.place at.entry (3 + j)) ≡ slice_index_or value.now j 0 }
{
    for index in 0..8_u64 {
        let word = value.get(index as usize).copied().unwrap_or(0);
        at.write(words, merger, VALUE + index, word);
    }
}

/// The words of the entry's value: none where it is a removal.
fn words_of(entry: &Entry) -> &[u64]
    ensures words { result.now ≡ value_list entry.now.value }
    ensures few { length result.now ≤ 8 }
{
    match &entry.value {
        Some(value) => value.words(),
        None => &[],
    }
}

/// The entry's time word.
fn spelling(entry: &Entry) -> u64
    requires { entry.now.time < 2 ^ 62 }
    ensures { result ≡ spelling entry.now }
{
    2 * entry.time + u64::from(entry.value.is_none())
}

/// Writes the entry there.
pub(crate) fn write_entry<P: Pace>(
    words: &Words<P>,
    merger: &mut RawMerger,
    at: PlacedEntry,
    entry: &Entry,
)
    requires of { IsSeatOf words.now merger.old }
    requires free { MayWriteInto merger.old.knows at.place at.entry }
    requires early { entry.now.time < 2 ^ 62 }
    ensures of { IsSeatOf words.now merger.new }
    ensures changes { Changes (IsOfEntry at.place at.entry) merger.old.knows merger.new.knows }
    ensures made { entry_in (row_of merger.new.knows) at.place at.entry ≡ entry.now }
    ensures canonical { is_canonical (row_of merger.new.knows) at.place at.entry ≡ true }
{
    let value = words_of(entry);
    write_words(words, merger, at, value);
    at.write(words, merger, LENGTH, value.len() as u64);
    at.write(words, merger, TIME, spelling(entry));
    at.write(words, merger, KEY, entry.key);
}

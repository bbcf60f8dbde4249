//! Entries as the words of a place spell them, and as times came to them.
ghost use Rattle.std.specs.Prelude.{◌≡◌, ◌≤◌, ◌↔◌, IsTrue, length};
ghost use Rattle.clsm_law.specs.Layout.{memory, size_of};
ghost use Rattle.clsm_law.specs.Places.{entry_in};
ghost use Rattle.clsm_law.specs.Worlds.{outcome_at};
ghost use Rattle.clsm_law.specs.Deciding.{entry_of_slot};

use crate::words::word_at;
use clsm_law::{Layout, Word};
use clsm_model::{Key, Slot, Time, Value};
use std::marker::Model;

/// An entry whose value may have no word too: the words of a place may spell one that nobody wrote.
/// Contracts see the entry.
#[derive(Drop)]
pub(crate) struct PlainEntry {
    key: Key,
    time: Time,
    is_removal: bool,
    words: [u64; 8],
    count: usize,
}

impl Model for PlainEntry {
    ghost use Rattle.std.specs.Prelude.{◌≤◌, Some, None, cond, take};
    ghost use Rattle.clsm_levels.specs.declared.entry.Entry.{Entry};

    ghost Value = { Entry };

    ghost view = { λ e. record { key = e.key; time = e.time; value = cond e.is_removal None (Some (take e.count e.words)) } };

    ghost invariant = { λ e. e.count ≤ 8 };
}

impl PlainEntry {
    ghost use Rattle.std.specs.Prelude.{◌≡◌, ◌↔◌, IsTrue};
    ghost use Rattle.clsm_levels.specs.Entry.{is_removal};
    ghost use Rattle.clsm_levels.specs.Run.{ComesBefore};
    ghost use Rattle.clsm_law.specs.Deciding.{IsPassedBy};

    /// The entry of this key, time and value.
    fn new(key: Key, time: Time, value: Option<Value>) -> PlainEntry
        ensures { result ≡ record { key = key; time = time; value = value } }
    {
        let mut words = [0; 8];
        let Some(value) = value else {
            return PlainEntry {
                key,
                time,
                is_removal: true,
                words,
                count: 0,
            };
        };
        let count = value.words().len();
        words[..count].copy_from_slice(value.words());
        PlainEntry {
            key,
            time,
            is_removal: false,
            words,
            count,
        }
    }

    pub(crate) fn key(&self) -> u64
        ensures { result ≡ self.now.key }
    {
        self.key
    }

    pub(crate) fn time(&self) -> Time
        ensures { result ≡ self.now.time }
    {
        self.time
    }

    /// Whether it has no value.
    pub(crate) fn is_removal(&self) -> bool
        ensures { result ≡ is_removal self.now }
    {
        self.is_removal
    }

    /// Whether both are one entry.
    pub(crate) fn is_same(&self, other: &PlainEntry) -> bool
        ensures { IsTrue result ↔ (self.now ≡ other.now) }
    {
        if self.key != other.key || self.time != other.time || self.is_removal != other.is_removal {
            return false;
        }
        self.is_removal || self.words[..self.count] == other.words[..other.count]
    }

    /// Whether it stands before the other in a run: by rising key, and within a key by falling
    /// time.
    pub(crate) fn comes_before(&self, other: &PlainEntry) -> bool
        ensures { IsTrue result ↔ ComesBefore self.now other.now }
    {
        self.key < other.key || self.key == other.key && other.time < self.time
    }

    /// Whether it is of another key, or not below the floor, or no newer than the other.
    pub(crate) fn does_not_hide(&self, other: &PlainEntry, floor: Time) -> bool
        ensures { IsTrue result ↔ IsPassedBy floor other.now self.now }
    {
        self.key != other.key || self.time >= floor || self.time <= other.time
    }
}

/// A word of an entry of a place.
pub(crate) fn part_at(layout: &Layout, words: &[u64], place: u64, entry: u64, part: u64) -> u64
    requires { length words.now ≡ size_of layout.now }
    ensures { result ≡ memory layout.now words.now (Word.Entry place entry part) }
{
    word_at(layout, words, Word::Entry { place, entry, part })
}

/// The entry of the place that its words spell.
pub(crate) fn entry_in(layout: &Layout, words: &[u64], place: u64, entry: u64) -> PlainEntry
    requires { length words.now ≡ size_of layout.now }
    ensures { result ≡ entry_in (memory layout.now words.now) place entry }
{
    let spelled = part_at(layout, words, place, entry, 1);
    PlainEntry {
        key: part_at(layout, words, place, entry, 0),
        time: spelled / 2,
        is_removal: spelled % 2 == 1,
        words: [
            part_at(layout, words, place, entry, 3),
            part_at(layout, words, place, entry, 4),
            part_at(layout, words, place, entry, 5),
            part_at(layout, words, place, entry, 6),
            part_at(layout, words, place, entry, 7),
            part_at(layout, words, place, entry, 8),
            part_at(layout, words, place, entry, 9),
            part_at(layout, words, place, entry, 10),
        ],
        count: part_at(layout, words, place, entry, 2).min(8) as usize,
    }
}

/// The write that the time came to, as an entry.
pub(crate) fn entry_of_slot(slots: &[Option<Slot>], time: Time) -> Option<PlainEntry>
    ensures { result ≡ entry_of_slot time (outcome_at slots.now time) }
{
    let slot = slots.get(time as usize).copied().flatten()?;
    match slot {
        Slot::Wrote { key, value, .. } => Some(PlainEntry::new(key, time, value)),
        Slot::Nothing => None,
    }
}

//! The plain map: what each read of a store is held against.
ghost use Rattle.std.specs.Prelude.{◌≡◌, ℕ, ◌+◌, ◌≤◌, [], length, take, None, IsSome, IfOk, OnOk, OnErr};
ghost use Rattle.clsm_model.specs.History.{History, plain, slot_at, end_of};
ghost use Rattle.clsm_model.specs.Map.{AddsKey, IsMap, IsRange, Applies, WritesKey, between, value_at};

use crate::Key;
use crate::slot::Slot;
use crate::value::Value;
use std::alloc::{AllocError, Global};
use std::collections::BTreeMap;
use std::marker::Model;
use thiserror::Error;

/// The refusal if memory runs out.
#[derive(Clone, Copy, Debug, PartialEq, Eq, Error)]
#[error("memory")]
pub struct Memory;

impl From<AllocError> for Memory {
    fn from(_: AllocError) -> Memory {
        Memory
    }
}

/// A map of keys to values in one thread's memory: what every read is held against.
/// Contracts see its pairs by rising key.
#[derive(Drop)]
pub struct PlainMap {
    values: BTreeMap<u64, Value>,
    alloc: Global,
}

impl Model for PlainMap {
    ghost use Rattle.std.specs.Prelude.{ℕ, List};

    ghost Value = { List (ℕ × List ℕ) };

    ghost view = { λ m. m.values.entries };
}

impl PlainMap {
    /// The empty map: the map of every history below time 0. It takes no memory yet.
    pub fn new(alloc: Global) -> PlainMap
        ensures empty { result ≡ [] }
        ensures starts { (h : History) → IsMap h 0 result }
    {
        PlainMap {
            values: BTreeMap::new(alloc),
            alloc,
        }
    }

    /// The map of these slots, played in order from time 0 on. It is the map of each history that
    /// begins with them, below the time that is their number. Refused if memory runs out.
    pub fn replay(alloc: Global, slots: &[Slot]) -> Result<PlainMap, Memory>
        ensures map { IfOk result (IsMap (plain slots.now) (length slots.now)) }
        ensures begins { IfOk result (λ map.
            (h : History) (s : ℕ) → s ≤ end_of h → slots.now ≡ take s h.slots → IsMap h s map) }
    {
        let mut map = PlainMap::new(alloc);
        for slot in slots {
            map.apply(slot)?;
        }
        Ok(map)
    }

    /// Applies one slot. The map of a history below a time becomes its map below the next time,
    /// where the slot is the history's at that time. Only a value for a key that had none can be
    /// refused if memory runs out, and the map is then as it was.
    pub fn apply(&mut self, slot: &Slot) -> Result<(), Memory>
        ensures plays { OnOk result (Applies slot.now self.old self.new) }
        ensures follows { OnOk result (
            (h : History) (s : ℕ) → slot_at h s ≡ slot.now → IsMap h s self.old → IsMap h (s + 1) self.new) }
        ensures refused { OnErr result (AddsKey slot.now self.old) }
        ensures unchanged { OnErr result (self.new ≡ self.old) }
    {
        match *slot {
            Slot::Nothing => Ok(()),
            Slot::Wrote { key, value, .. } => self.write(key, value),
        }
    }

    fn write(&mut self, key: Key, written: Option<Value>) -> Result<(), Memory>
        ensures writes { OnOk result (WritesKey key written self.old self.new) }
        ensures refused { OnErr result (IsSome written × (value_at self.old key ≡ None)) }
        ensures unchanged { OnErr result (self.new ≡ self.old) }
    {
        let Some(value) = written else {
            self.values.remove(&key);
            return Ok(());
        };
        if let Err(_) = self.values.insert(key, value) {
            return Err(Memory);
        }
        Ok(())
    }

    /// The value of the key, if it has one.
    pub fn get(&self, key: Key) -> Option<Value>
        ensures { result ≡ value_at self.now key }
    {
        self.values.get(&key).copied()
    }

    /// All pairs with `lo <= key <= hi` by rising key; none where `lo > hi`. Refused if memory
    /// runs out. Of the map of a history below a time they are all keys from `lo` to `hi` with a
    /// value below that time. It costs a search and the pairs.
    pub fn range(&self, lo: Key, hi: Key) -> Result<Vec<(u64, Value)>, Memory>
        ensures rows { IfOk result (λ rows. rows.items ≡ between lo hi self.now) }
        ensures history { IfOk result (λ rows.
            (h : History) (s : ℕ) → IsMap h s self.now → IsRange h s lo hi rows.items) }
    {
        if hi < lo {
            return Ok(Vec::new(self.alloc));
        }
        let rows = self
            .values
            .range(lo..=hi)
            .map(|(key, value)| (*key, *value))
            .collect(self.alloc);
        rows.map_err(|_| Memory)
    }
}

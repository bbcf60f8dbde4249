//! A replay of calls in the order of time on a plain map, which each reading is held against.
ghost use Rattle.std.specs.Prelude.{◌≡◌, ℕ, ◌+◌, ◌<◌, ◌^◌, ◌↔◌, [], false, IfOk, IsTrue, OnOk, length};
ghost use Rattle.clsm_model.specs.History.{History};
ghost use Rattle.clsm_model.specs.Map.{IsMap};
ghost use Rattle.clsm_model.specs.Seats.{IsRightRecord};
ghost use Rattle.clsm_audit.specs.Replayed.{HasComeTo, StandFrom, StandsIn, is_read, until_by};
ghost use Rattle.clsm_audit.specs.Written.{is_write, time_past};

use crate::replies::is_reply;
use crate::write::{change_by, is_write, span_of, write_by};
use clsm_model::{CallRecord, Change, Deed, Memory, PlainMap, Time};
use std::alloc::Global;

/// A replay of calls in the order of time.
#[derive(Drop)]
pub struct Replay {
    /// The map of the writes so far.
    map: PlainMap,
    /// The first time past the writes so far. A read before it stands inside a batch.
    until: Time,
}

impl Replay {
    /// The replay before the first call.
    pub fn new(alloc: Global) -> Replay
        ensures map { (h : History) → IsMap h 0 result.map }
        ensures until { result.until ≡ 0 }
    {
        Replay {
            map: PlainMap::new(alloc),
            until: 0,
        }
    }

    /// Plays the next call, and answers whether what it read is right. Refused if memory runs out.
    pub fn play(&mut self, call: &CallRecord) -> Result<bool, Memory>
        requires { time_past call.now < 2 ^ 64 }
        ensures right { IfOk result (λ right. (h : History) →
            HasComeTo h call.now.time self.old.until self.old.map →
            (IsTrue right ↔ IsRightRecord h call.now)) }
        ensures write { OnOk result ((h : History) → StandsIn h call.now →
            IsMap h call.now.time self.old.map → IsMap h (time_past call.now) self.new.map) }
        ensures read { OnOk result (is_write call.now.deed ≡ false → self.new.map ≡ self.old.map) }
        ensures until { OnOk result (self.new.until ≡ until_by self.old.until call.now) }
    {
        let right = self.is_right(call)?;
        apply(&mut self.map, call)?;
        self.until = self.until_after(call);
        Ok(right)
    }

    /// The map of the writes so far.
    pub fn into_map(self) -> PlainMap
        ensures { result ≡ self.map }
    {
        self.map
    }

    /// Whether what the next call read is right: nothing, or what the map gives at a time inside
    /// no batch. Refused if memory runs out.
    fn is_right(&self, call: &CallRecord) -> Result<bool, Memory>
        ensures { IfOk result (λ right. (h : History) →
            HasComeTo h call.now.time self.now.until self.now.map →
            (IsTrue right ↔ IsRightRecord h call.now)) }
    {
        if !is_read(&call.deed) {
            return Ok(true);
        }
        if call.time < self.until {
            return Ok(false);
        }
        is_reply(&self.map, &call.deed)
    }

    /// The first time past the writes so far, with this call.
    fn until_after(&self, call: &CallRecord) -> Time
        requires { time_past call.now < 2 ^ 64 }
        ensures { result ≡ until_by self.now.until call.now }
    {
        if is_write(&call.deed) {
            self.until.max(call.time + span_of(&call.deed))
        } else {
            self.until
        }
    }
}

/// Whether the deed read something, or took or gave back a snapshot.
fn is_read(deed: &Deed) -> bool
    ensures { result ≡ is_read deed.now }
{
    !matches!(
        deed,
        Deed::Put { .. } | Deed::Remove { .. } | Deed::Batch { .. }
    )
}

/// Applies all writes of the call to the map. Refused if memory runs out.
fn apply(map: &mut PlainMap, call: &CallRecord) -> Result<(), Memory>
    ensures write { OnOk result ((h : History) → StandsIn h call.now →
        IsMap h call.now.time map.old → IsMap h (time_past call.now) map.new) }
    ensures read { OnOk result (is_write call.now.deed ≡ false → map.new ≡ map.old) }
{
    if let Deed::Batch { members } = &call.deed {
        return apply_members(map, call.seat, members.as_slice());
    }
    if let Some(slot) = write_by(call) {
        map.apply(&slot)?;
    }
    Ok(())
}

/// Applies the members of a batch of the seat to the map. Refused if memory runs out.
fn apply_members(map: &mut PlainMap, seat: u32, members: &[(u64, Change)]) -> Result<(), Memory>
    ensures { OnOk result ((h : History) (s : ℕ) → StandFrom h seat s members.now →
        IsMap h s map.old → IsMap h (s + length members.now) map.new) }
{
    for (key, change) in members {
        if let Some(slot) = change_by(seat, *key, change) {
            map.apply(&slot)?;
        }
    }
    Ok(())
}

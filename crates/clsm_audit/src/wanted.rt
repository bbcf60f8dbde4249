//! Searches for the last write of a kind among the writes of records.
ghost use Rattle.std.specs.Prelude.{◌≡◌, ◌<◌, ◌≤◌, ◌^◌, ◌↔◌, IfSome, IsTrue, MatchOption, slice_get};
ghost use Rattle.clsm_model.specs.Right.{member_write};
ghost use Rattle.clsm_audit.specs.Lawful.{HaveTimes};
ghost use Rattle.clsm_audit.specs.Sought.{Fits, HasNoneIn, IsLastIn, IsLastWrite, IsMadeAt};
ghost use Rattle.clsm_audit.specs.Written.{time_past, write_of};

use crate::write::{change_by, span_of, write_by};
use clsm_model::{CallRecord, Change, Deed, Key, Slot, Time, Value};

/// Which writes are looked for.
#[derive(Clone, Copy)]
pub enum Wanted {
    /// Each write of the key.
    OfKey { key: Key },
    /// Each write that leaves this at the key.
    Leaves { key: Key, value: Option<Value> },
}

/// A write of a record: the index of the record, the time of the write, and what it wrote.
#[derive(Clone, Copy)]
pub struct FoundWrite {
    pub index: usize,
    pub time: Time,
    pub slot: Slot,
}

impl Wanted {
    /// Whether the write of the slot is one of those.
    fn fits(&self, slot: &Slot) -> bool
        ensures { IsTrue result ↔ Fits self.now slot.now }
    {
        let Slot::Wrote {
            key: written,
            value: left,
            ..
        } = slot
        else {
            return false;
        };
        match self {
            Wanted::OfKey { key } => written == key,
            Wanted::Leaves { key, value } => written == key && left == value,
        }
    }

    /// The write that the call makes at the time, if it is one of those.
    fn write_at(&self, call: &CallRecord, time: Time) -> Option<Slot>
        ensures { IsMadeAt self.now time call.now result }
    {
        let slot = write_at(call, time)?;
        if self.fits(&slot) { Some(slot) } else { None }
    }
}

/// The write that the call makes at the time, if it makes one.
fn write_at(call: &CallRecord, time: Time) -> Option<Slot>
    ensures { result ≡ write_of call.now time }
{
    if let Deed::Batch { members } = &call.deed {
        if time < call.time {
            return None;
        }
        return member_write(call.seat, members.as_slice(), time - call.time);
    }
    if call.time == time {
        write_by(call)
    } else {
        None
    }
}

/// The write that the member of a batch of the seat with this number is, if there is one.
fn member_write(seat: u32, members: &[(u64, Change)], number: u64) -> Option<Slot>
    ensures { result ≡ member_write seat members.now number }
{
    let (key, change) = members.get(number as usize)?;
    change_by(seat, *key, change)
}

/// The last of the wanted writes of the call with this index at times from `from` on and below
/// `below`, if there is one.
fn last_in(
    index: usize,
    call: &CallRecord,
    wanted: &Wanted,
    from: Time,
    below: Time,
) -> Option<FoundWrite>
    requires { time_past call.now < 2 ^ 64 }
    ensures { MatchOption result (HasNoneIn wanted.now call.now from below) (IsLastIn wanted.now index call.now from below) }
{
    let mut last = None;
    for time in call.time.max(from)..(call.time + span_of(&call.deed)).min(below) {
        if let Some(slot) = wanted.write_at(call, time) {
            last = Some(FoundWrite { index, time, slot });
        }
    }
    last
}

/// The last of the wanted writes of the records below the time, if there is one.
pub fn last_write(records: &[CallRecord], wanted: &Wanted, below: Time) -> Option<FoundWrite>
    requires { HaveTimes records.now }
    ensures { IsLastWrite records.now wanted.now below result }
{
    let mut from = 0;
    let mut last = None;
    for (index, call) in records.iter().enumerate() {
        if let Some(found) = last_in(index, call, wanted, from, below) {
            from = found.time;
            last = Some(found);
        }
    }
    last
}

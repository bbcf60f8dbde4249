//! How far the calls of a seat have come, and whether a call may be its next one.
ghost use Rattle.std.specs.Prelude.{◌≡◌, ℕ, ◌+◌, ◌<◌, ◌≤◌, ◌^◌, ◌↔◌, List, ◌++◌, ◌∷◌, [], IfOk, IsTrue, length, Option, None, slice_index_or, vec_len};
ghost use Rattle.clsm_model.specs.declared.record.CallRecord.{CallRecord};
ghost use Rattle.clsm_model.specs.Seats.{due_after, open_after};
ghost use Rattle.clsm_audit.specs.Lawful.{IsAtSnapshot, IsFromDue, IsKnown};
ghost use Rattle.clsm_audit.specs.States.{AreStates};
ghost use Rattle.clsm_audit.specs.Written.{span_of, time_past};

use crate::range::is_in_range;
use clsm_model::{CallRecord, Change, Config, Deed, Memory, Time};
use std::alloc::Global;

/// How far the calls of a seat have come: its due, and the snapshot that is open.
#[derive(Clone, Copy)]
pub struct SeatState {
    pub due: Time,
    pub snapshot: Option<Time>,
}

impl SeatState {
    /// The state before the first call.
    pub fn new() -> SeatState
        ensures { result ≡ record { due = 0; snapshot = None } }
    {
        SeatState {
            due: 0,
            snapshot: None,
        }
    }

    /// The due after a call at this time.
    fn due_after(&self, time: Time, deed: &Deed) -> Time
        requires { time + span_of deed.now < 2 ^ 64 }
        ensures { result ≡ due_after self.now.due self.now.snapshot time deed.now }
    {
        match deed {
            Deed::Put { .. } | Deed::Remove { .. } => time + 1,
            Deed::Rmw { change, .. } => match change {
                Change::Keep => time,
                _ => time + 1,
            },
            Deed::Batch { members } => time + members.as_slice().len() as u64,
            Deed::Get { .. } | Deed::Snapshot => time,
            Deed::Close | Deed::GetAt { .. } => self.due,
            Deed::Scan { .. } | Deed::Page { .. } if self.snapshot.is_some() => self.due,
            Deed::Scan { .. } | Deed::Page { .. } => time,
        }
    }

    /// The snapshot that is open after a call at this time.
    pub fn open_after(&self, time: Time, deed: &Deed) -> Option<Time>
        ensures { result ≡ open_after self.now.snapshot time deed.now }
    {
        match deed {
            Deed::Snapshot => Some(time),
            Deed::Close => None,
            _ => self.snapshot,
        }
    }

    /// The state after this call.
    fn after(&self, call: &CallRecord) -> SeatState
        requires { time_past call.now < 2 ^ 64 }
        ensures { result ≡ record {
          due = due_after self.now.due self.now.snapshot call.now.time call.now.deed;
          snapshot = open_after self.now.snapshot call.now.time call.now.deed;
        } }
    {
        SeatState {
            due: self.due_after(call.time, &call.deed),
            snapshot: self.open_after(call.time, &call.deed),
        }
    }

    /// Whether the deed suits the snapshot that is open: an opening, that none is open; a close and
    /// a read at it, that one is open at this time; a scan or a page, that none is open at another
    /// time.
    fn is_at_snapshot(&self, time: Time, deed: &Deed) -> bool
        ensures { IsTrue result ↔ IsAtSnapshot self.now.snapshot time deed.now }
    {
        match deed {
            Deed::Snapshot => self.snapshot.is_none(),
            Deed::Close | Deed::GetAt { .. } => self.snapshot == Some(time),
            Deed::Scan { .. } | Deed::Page { .. } => {
                self.snapshot.is_none() || self.snapshot == Some(time)
            }
            _ => true,
        }
    }

    /// Whether a call of a seat in this state is known: its seat, its batch and its times are in
    /// their ranges, and it suits the snapshot.
    pub fn is_known(&self, config: &Config, call: &CallRecord) -> bool
        ensures { IsTrue result ↔ IsKnown config.now self.now.snapshot call.now }
    {
        is_in_range(config, call) && self.is_at_snapshot(call.time, &call.deed)
    }

    /// Whether a call at this time is not below the due, where it is held against it.
    pub fn is_from_due(&self, time: Time, deed: &Deed) -> bool
        ensures { IsTrue result ↔ IsFromDue self.now.due self.now.snapshot time deed.now }
    {
        match deed {
            Deed::Close | Deed::GetAt { .. } => true,
            Deed::Scan { .. } | Deed::Page { .. } => { self.snapshot.is_some() || self.due <= time }
            _ => self.due <= time,
        }
    }
}

/// The states of so many seats before any call. Refused if memory runs out.
pub fn new_states(alloc: Global, seats: usize) -> Result<Vec<SeatState>, Memory>
    ensures len { IfOk result (λ states. vec_len states ≡ seats) }
    ensures states { IfOk result (λ states. AreStates [] states.items) }
{
    Ok(vec![in alloc; SeatState::new(); seats]?)
}

/// Takes the call into the state of its seat.
pub fn advance(states: &mut [SeatState], call: &CallRecord)
    requires seat { call.now.seat < length states.old }
    requires time { time_past call.now < 2 ^ 64 }
    ensures { (records : List CallRecord) →
        AreStates records states.old → AreStates (records ++ call.now ∷ []) states.new }
{
    let seat = call.seat as usize;
    states[seat] = states[seat].after(call);
}

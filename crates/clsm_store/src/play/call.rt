//! The calls of a seat, and the records of those that were made.
ghost use Rattle.std.specs.Prelude.{◌≡◌, ◌++◌, IfErr, IfNone, IfOk, IfSome, option_to_list};
ghost use Rattle.clsm_store_calls.specs.Seats.{Answers, SeatState};
ghost use Rattle.clsm_store.specs.Play.{HasList, IsBatch, PlaysCall, call_for};

use super::answer::Answer;
use clsm_model::{CallRecord, Deal, Deed, Key, Members, Memory, PageRange, Time, Value};
use clsm_store_calls::{Page, Scan};
use std::alloc::{AllocError, Global};

/// A call of a seat.
#[derive(Debug, Drop)]
pub enum Call {
    /// Writes the value at the key.
    Put { key: Key, value: Value },
    /// Removes the key.
    Remove { key: Key },
    /// Writes the value at the key, if no other seat is in the way.
    Try { key: Key, value: Value },
    /// Adds to the key's word, which is 0 where it has no value; keeps it where the sum passes 64
    /// bits, or it has several words.
    Add { key: Key, by: u64 },
    /// Writes the value at the key where it has none, and else keeps it.
    Claim { key: Key, value: Value },
    /// Reads the value at the key.
    Get { key: Key },
    /// Opens a snapshot, if none is open.
    Snap,
    /// Closes the open snapshot.
    Close,
    /// Reads the value at the key under the open snapshot.
    GetAt { key: Key },
    /// Reads all keys from `lo` to `hi` that have a value, under the open snapshot if one is open.
    Scan { lo: Key, hi: Key },
    /// Reads the first `max` of the keys that a scan would read.
    Page { from: u64, hi: Key, max: u64 },
    /// Makes the writes of all members at once.
    Batch { members: Members },
}

impl Call {
    /// The call that the deal asks for. Refused if memory runs out, which a batch alone takes.
    pub fn of_deal(alloc: Global, deal: Deal) -> Result<Call, Memory>
        ensures call { IfOk result (λ call. call ≡ call_for deal) }
        ensures refused { IfErr result (λ refusal. IsBatch deal) }
    {
        Ok(match deal {
            Deal::Put { key, value } => Call::Put { key, value },
            Deal::Remove { key } => Call::Remove { key },
            Deal::Get { key } => Call::Get { key },
            Deal::Add { key, by } => Call::Add { key, by },
            Deal::Claim { key, value } => Call::Claim { key, value },
            Deal::Snap => Call::Snap,
            Deal::Close => Call::Close,
            Deal::GetAt { key } => Call::GetAt { key },
            Deal::Scan { lo, hi } => Call::Scan { lo, hi },
            Deal::Batch { members } => {
                let Ok(members) = Vec::from_array(alloc, members) else {
                    return Err(Memory);
                };
                let members = Members::new(members);
                Call::Batch { members }
            }
        })
    }

    /// The record of the call that the seat with this number made, where it was answered so; `None`
    /// where it was refused.
    pub fn into_record(self, seat: u32, answer: Answer) -> Option<CallRecord>
        ensures made { (old new : SeatState) → old.number ≡ seat →
            PlaysCall self old new answer → new.calls ≡ old.calls ++ option_to_list result }
        ensures seat { IfSome result (λ call. call.seat ≡ seat) }
    {
        let (time, deed) = match (self, answer) {
            (Call::Scan { lo, hi }, Answer::Scan(Ok(Scan { time, rows }))) => {
                (time, Deed::Scan { lo, hi, rows })
            }
            (Call::Page { from, hi, max }, Answer::Page(Ok(Page { time, rows, more }))) => {
                let range = PageRange { from, hi, max };
                (time, Deed::Page { range, rows, more })
            }
            (Call::Batch { members }, Answer::Batch(Ok(time))) => (time, Deed::Batch { members }),
            (call, answer) => call.deed_of(&answer)?,
        };
        Some(CallRecord { seat, time, deed })
    }

    /// As `into_record`, of a call and an answer that are used again: their lists are copied.
    /// Refused if memory runs out, which lists alone take.
    pub fn to_record(&self, seat: u32, answer: &Answer) -> Result<Option<CallRecord>, AllocError>
        ensures made { IfOk result (λ made. (old new : SeatState) → old.number ≡ seat →
            PlaysCall self.now old new answer.now → new.calls ≡ old.calls ++ option_to_list made) }
        ensures seat { IfOk result (λ made. IfSome made (λ call. call.seat ≡ seat)) }
        ensures refused { IfErr result (λ refusal. HasList self.now answer.now) }
    {
        let (time, deed) = match (self, answer) {
            (Call::Scan { lo, hi }, Answer::Scan(Ok(scan))) => {
                let (lo, hi, rows) = (*lo, *hi, scan.rows.clone()?);
                (scan.time, Deed::Scan { lo, hi, rows })
            }
            (Call::Page { from, hi, max }, Answer::Page(Ok(page))) => {
                let (from, hi, max) = (*from, *hi, *max);
                let range = PageRange { from, hi, max };
                let (rows, more) = (page.rows.clone()?, page.more);
                (page.time, Deed::Page { range, rows, more })
            }
            (Call::Batch { members }, Answer::Batch(Ok(time))) => {
                let members = members.clone()?;
                (*time, Deed::Batch { members })
            }
            (call, answer) => {
                let Some(made) = call.deed_of(answer) else {
                    return Ok(None);
                };
                made
            }
        };
        Ok(Some(CallRecord { seat, time, deed }))
    }

    /// The time and the deed of the call where it was answered so, with no list on either side;
    /// `None` where it was refused.
    fn deed_of(&self, answer: &Answer) -> Option<(Time, Deed)>
        ensures made { IfSome result (λ made. (old new : SeatState) →
            PlaysCall self.now old new answer.now → Answers old new made.0 made.1) }
        ensures none { IfNone result (¬ HasList self.now answer.now → (old new : SeatState) →
            PlaysCall self.now old new answer.now → new.calls ≡ old.calls) }
    {
        Some(match (self, answer) {
            (Call::Put { key, value }, Answer::Write(Ok(time)))
            | (Call::Try { key, value }, Answer::Try(Ok(time))) => {
                let (key, value) = (*key, *value);
                (*time, Deed::Put { key, value })
            }
            (Call::Remove { key }, Answer::Write(Ok(time))) => (*time, Deed::Remove { key: *key }),
            (Call::Add { key, .. } | Call::Claim { key, .. }, Answer::Change(Ok(rmw))) => {
                let (key, old, change) = (*key, rmw.old, rmw.change);
                (rmw.time, Deed::Rmw { key, old, change })
            }
            (Call::Get { key }, Answer::Read(got)) => {
                let (key, reply) = (*key, got.value);
                (got.time, Deed::Get { key, reply })
            }
            (Call::Snap, Answer::Snapshot(Ok(time))) => (*time, Deed::Snapshot),
            (Call::Close, Answer::Close(Some(time))) => (*time, Deed::Close),
            (Call::GetAt { key }, Answer::ReadAt(Some(got))) => {
                let (key, reply) = (*key, got.value);
                (got.time, Deed::GetAt { key, reply })
            }
            _ => return None,
        })
    }
}

//! The seats of a script, and what it keeps of their calls.
ghost use Rattle.std.specs.Prelude.{◌≡◌, ◌≢◌, ◌<◌, ◌≤◌, length, IfOk, OnOk};
ghost use Rattle.clsm_audit.specs.Whole.{HasHistory};
ghost use Rattle.clsm_store_calls.specs.Seats.{AreNew, HasSizes, StoreId};
ghost use Rattle.clsm_store.specs.Meetings.{AreOf};
ghost use Rattle.clsm_store_audit.specs.Settled.{HaveWholeHistory};
ghost use Rattle.clsm_script.specs.Lines.{IsNewSession};
ghost use Rattle.clsm_script.specs.Session.{IsSession};
ghost use Rattle.clsm_script.specs.Play.{IsAudited, Calls, MeetsSeat, PairMeets, TakesSeat};

use crate::records::Records;
use clsm_audit::{AuditError, audit, explain};
use clsm_model::{Config, Time};
use clsm_store::{Answer, Call, Pace, Seat, Store};
use clsm_store_audit::settle_lawful;
use clsm_text::{Listed, write_reason};
use std::alloc::{AllocError, Global};
use std::io::Write;
use std::sync::Wait;

/// A script's seats at a store, one of which is in use, and the records of all their answered
/// calls, in the order in which they were made.
#[derive(Drop)]
pub struct Session {
    /// The sizes of the store.
    config: Config,
    seats: Vec<Seat>,
    /// The number of the seat in use.
    used: usize,
    records: Records,
}

/// Lets the seats at two places of a list meet, the first one first.
fn meet_pair<P: Pace>(store: &Store<P>, seats: &mut [Seat], one: usize, other: usize) -> Time
    requires one { one < length seats.old }
    requires other { other < length seats.old }
    requires apart { one ≢ other }
    requires store { AreOf store.now seats.old }
    ensures { PairMeets one other result seats.old seats.new }
{
    if other < one {
        let (low, high) = seats.split_at_mut(one);
        return store.meet(&mut high[0], &mut low[other]);
    }
    let (low, high) = seats.split_at_mut(other);
    store.meet(&mut low[one], &mut high[0])
}

impl Session {
    /// A session of the seats of a new store; seat 0 is in use.
    pub fn new(alloc: Global, config: Config, seats: Vec<Seat>) -> Session
        ensures session { (store : StoreId) → HasSizes store config → AreNew store config.seats seats.items →
            1 ≤ config.seats → IsSession store result }
        ensures fresh { (store : StoreId) → AreNew store config.seats seats.items → IsNewSession config store result }
    {
        Session {
            config,
            seats,
            used: 0,
            records: Records::new(alloc),
        }
    }

    /// Makes the call by the seat in use, and keeps its record where it is answered. Refused if
    /// memory runs out: the call was made then, and its record is lost.
    pub fn call<P: Pace + Drop, R: Wait>(
        &mut self,
        rt: &R,
        alloc: Global,
        store: &Store<P>,
        call: &Call,
    ) -> Result<Answer, AllocError>
        requires { IsSession store.now self.old }
        ensures calls { IfOk result (Calls call.now self.old self.new) }
        ensures session { OnOk result (IsSession store.now self.new) }
    {
        let seat = &mut self.seats[self.used];
        let number = seat.number();
        let answer = store.play(rt, alloc, seat, call);
        self.records.keep(alloc, number, call, &answer)?;
        Ok(answer)
    }

    /// Takes the seat with this number into use, and answers the number; `None` where there is no
    /// such seat, and nothing changes then.
    pub fn take_seat(&mut self, number: u64) -> Option<usize>
        ensures takes { TakesSeat number self.old self.new result }
        ensures session { (store : StoreId) → IsSession store self.old → IsSession store self.new }
    {
        let number = number as usize;
        if number >= self.seats.len() {
            return None;
        }
        self.used = number;
        Some(number)
    }

    /// Lets the seat in use meet the seat with this number, and answers as `Store::meet`; `None`
    /// where that is the seat in use or there is none, and nothing was done then.
    pub fn meet<P: Pace>(&mut self, store: &Store<P>, number: u64) -> Option<Time>
        requires { IsSession store.now self.old }
        ensures meets { MeetsSeat number self.old self.new result }
        ensures session { IsSession store.now self.new }
    {
        let number = number as usize;
        if number == self.used || number >= self.seats.len() {
            return None;
        }
        Some(meet_pair(store, &mut self.seats, self.used, number))
    }

    /// Audits the records.
    pub fn audit(&self, alloc: Global) -> Result<(), AuditError>
        ensures { IsAudited self.now result }
    {
        match self.records.to_list(alloc) {
            Ok(records) => audit(alloc, &self.config, &records),
            Err(_) => Err(AuditError::Memory),
        }
    }

    /// Settles the seats, which shows that each of them is lawful, and that what they all did is
    /// one whole history: so no audit of the records finds a fault.
    pub fn settle<P: Pace>(self, store: &Store<P>)
        requires { IsSession store.now self }
        ensures whole { HaveWholeHistory self.seats.items }
        ensures history { HasHistory self.config self.records }
    {
        let Session { config, seats, .. } = self;
        let _ = settle_lawful(store, &config, seats);
    }

    /// Writes to the faults why the first record that has a fault has it, if there is one and
    /// memory to find out: what an explanation of `clsm_audit` says. A write that fails changes
    /// nothing.
    pub fn write_reason<E: Write>(&self, alloc: Global, faults: &mut E) {
        let Ok(records) = self.records.to_list(alloc) else {
            return;
        };
        let Err(AuditError::Fault { kind, index }) = audit(alloc, &self.config, &records) else {
            return;
        };
        let Ok(explanation) = explain(alloc, &self.config, &records, kind, index) else {
            return;
        };
        let lines = Vec::new(alloc);
        let listed = Listed { records, lines };
        let _ = write_reason(faults, &listed, index, &explanation);
    }
}

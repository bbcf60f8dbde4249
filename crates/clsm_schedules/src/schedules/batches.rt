//! The parts of a batch, as their steps.
use crate::schedules::line::{Line, record};
use crate::schedules::play::{Play, Wrong};
use clsm_machine::{Step, Word};
use clsm_model::{CallRecord, Change, Deed, Key, Members, Time};

/// The write that a member is, alone.
fn deed_of(key: Key, change: &Change) -> Deed {
    match change {
        Change::Set(value) => Deed::Put { key, value: *value },
        _ => Deed::Remove { key },
    }
}

impl Play {
    /// Parts of a batch; other rows are passed on.
    /// - `holds SEAT TIME`: takes the lock alone, looks at LIMIT, and finds the clock at this time.
    /// - `stages SEAT TIME DEED`: takes the time for a member that writes as the deed does, fills,
    ///   links, inserts and decides.
    /// - `batches SEAT TIME DEED`: a batch from its beginning to its end.
    pub(crate) fn batch(&mut self, name: &str, mut line: Line) -> Result<(), Wrong> {
        match name {
            "holds" => self.holds(line.seat()?, line.number()?),
            "stages" => self.stages(record(self.alloc, line.left)?),
            "batches" => self.batches(record(self.alloc, line.left)?),
            name => self.read(name, line),
        }
    }

    fn holds(&mut self, seat: u32, clock: Time) -> Result<(), Wrong> {
        self.does(seat, Step::EnterExclusive)?;
        self.look(seat, Word::Limit)?;
        self.finds(seat, Word::Clock, clock)
    }

    /// Takes the time for what the call writes.
    fn stage(&mut self, call: &CallRecord) -> Result<(), Wrong> {
        let key = match &call.deed {
            Deed::Put { key, .. } | Deed::Remove { key } | Deed::Rmw { key, .. } => *key,
            _ => return Err(Wrong::Unread),
        };
        self.does(call.seat, Step::Stage(call.time, key))
    }

    fn stages(&mut self, call: CallRecord) -> Result<(), Wrong> {
        self.stage(&call)?;
        self.writes(call)
    }

    /// Takes the lock, and stages each member in turn, the first at this time.
    fn stages_all(&mut self, seat: u32, first: Time, members: &Members) -> Result<(), Wrong> {
        self.holds(seat, first)?;
        for (number, (key, change)) in members.as_slice().iter().enumerate() {
            let time = first.saturating_add(number as u64);
            let deed = deed_of(*key, change);
            self.stages(CallRecord { seat, time, deed })?;
        }
        Ok(())
    }

    fn batches(&mut self, call: CallRecord) -> Result<(), Wrong> {
        let CallRecord { seat, time, deed } = call;
        let Deed::Batch { members } = deed else {
            return Err(Wrong::Unread);
        };
        self.stages_all(seat, time, &members)?;
        self.does(seat, Step::Commit(members))?;
        self.does(seat, Step::LeaveExclusive)
    }
}

//! Who makes the calls of a worker: a caller at a store, or a caller of a session.
ghost use Rattle.std.specs.Prelude.{◌≡◌, IfErr, IfOk, is_some, length};
ghost use Rattle.clsm_session.specs.Waiting.{RefusesCall};
ghost use Rattle.clsm_store_calls.specs.Conditional.{AnswersIf, MeetsAll};
ghost use Rattle.clsm_store_calls.specs.Seats.{IsSameSeat, Refuses};
ghost use Rattle.clsm_store.specs.Play.{PlaysCall, WantsMemory};
ghost use Rattle.clsm_store.specs.Promises.{GetsMany};
ghost use Rattle.clsm_workload.specs.Play.{Plays};
ghost use Rattle.clsm_workload.specs.Turns.{RefusesIf};

use crate::unwritten::Unwritten;
use clsm_model::{CallRecord, Change, Deal, Memory, Time, Value};
use clsm_session::{BatchRefused, Place, SessionCaller};
use clsm_store::{Answer, Call, Caller, Condition, Pace};
use std::alloc::Global;
use std::sync::Wait;

/// Who makes the calls of a worker, by one seat.
pub trait Player {
    ghost use Rattle.clsm_store_calls.specs.Seats.{SeatState};

    /// The seat.
    ghost seat: { Self → SeatState };

    /// The number of the seat.
    fn number(&self) -> u32
        ensures { result ≡ (seat self.now).number };

    /// Whether the seat has a snapshot open.
    fn has_snapshot(&self) -> bool
        ensures { result ≡ is_some (seat self.now).snapshot };

    /// Makes the call, and answers what the method of its name does. Refused where it waited for
    /// room, and the merger can make none.
    fn play_call<R: Wait>(
        &mut self,
        rt: &R,
        alloc: Global,
        call: &Call,
    ) -> Result<Answer, BatchRefused>
        ensures plays { IfOk result (PlaysCall call.now (seat self.old) (seat self.new)) }
        ensures memory { IfOk result (λ answer. WantsMemory answer → Refuses (seat self.old) (seat self.new)) }
        ensures refused { IfErr result (RefusesCall call.now (seat self.old) (seat self.new)) }
        ensures same { IsSameSeat (seat self.old) (seat self.new) };

    /// Reads each of the keys at one time, puts its value into the place beside it, or that it has
    /// none, and answers that time.
    fn read_many(&mut self, keys: &[u64], values: &mut [Option<Value>]) -> Time
        requires { length values.old ≡ length keys.now }
        ensures reads { GetsMany (λ place value. place ≡ value) (seat self.old) (seat self.new) keys.now values.new result }
        ensures same { IsSameSeat (seat self.old) (seat self.new) };

    /// Writes the members as one batch if each condition holds at the batch's own time, and answers
    /// that time.
    fn write_if<R: Wait>(
        &mut self,
        rt: &R,
        conditions: &[Condition],
        members: &[(u64, Change)],
    ) -> Result<Time, Unwritten>
        ensures written { IfOk result (AnswersIf (seat self.old) (seat self.new) members.now) }
        ensures holds { IfOk result (MeetsAll (seat self.old) (seat self.new) conditions.now) }
        ensures refused { IfErr result (RefusesIf (seat self.old) (seat self.new) conditions.now members.now) }
        ensures same { IsSameSeat (seat self.old) (seat self.new) };
}

/// Plays the deal, and answers the record of it; none where it was refused. A scan and a batch may
/// be refused if memory runs out: the seat is as before then.
pub fn play_deal<S: Player, R: Wait>(
    rt: &R,
    alloc: Global,
    player: &mut S,
    deal: Deal,
) -> Result<Option<CallRecord>, Memory>
    ensures played { IfOk result (Plays deal (S.seat player.old) (S.seat player.new)) }
    ensures refused { IfErr result (λ _. Refuses (S.seat player.old) (S.seat player.new)) }
{
    let call = Call::of_deal(alloc, deal)?;
    let Ok(answer) = player.play_call(rt, alloc, &call) else {
        return Ok(None);
    };
    if answer.wants_memory() {
        return Err(Memory);
    }
    Ok(call.into_record(player.number(), answer))
}

/// A write with no room is refused at once.
impl<P: Pace + Drop> Player for Caller<'_, P> {
    ghost seat = { λ caller. caller.seat };

    fn number(&self) -> u32 {
        self.seat.number()
    }

    fn has_snapshot(&self) -> bool {
        self.seat.snapshot_time().is_some()
    }

    fn play_call<R: Wait>(
        &mut self,
        rt: &R,
        alloc: Global,
        call: &Call,
    ) -> Result<Answer, BatchRefused> {
        Ok(Caller::play(self, rt, alloc, call))
    }

    fn read_many(&mut self, keys: &[u64], values: &mut [Option<Value>]) -> Time {
        self.get_many(keys, values)
    }

    fn write_if<R: Wait>(
        &mut self,
        rt: &R,
        conditions: &[Condition],
        members: &[(u64, Change)],
    ) -> Result<Time, Unwritten> {
        match self.batch_if(rt, conditions, members) {
            Ok(time) => Ok(time),
            Err(error) => Err(Unwritten::AtOnce(error)),
        }
    }
}

/// A write waits for room, and is refused where the merger can make none.
impl<W: Wait, P: Place> Player for SessionCaller<'_, W, P> {
    ghost seat = { λ caller. caller };

    fn number(&self) -> u32 {
        SessionCaller::number(self)
    }

    fn has_snapshot(&self) -> bool {
        self.snapshot_time().is_some()
    }

    fn play_call<R: Wait>(
        &mut self,
        _rt: &R,
        _alloc: Global,
        call: &Call,
    ) -> Result<Answer, BatchRefused> {
        self.play(call)
    }

    fn read_many(&mut self, keys: &[u64], values: &mut [Option<Value>]) -> Time {
        self.get_many(keys, values)
    }

    fn write_if<R: Wait>(
        &mut self,
        _rt: &R,
        conditions: &[Condition],
        members: &[(u64, Change)],
    ) -> Result<Time, Unwritten> {
        match self.batch_if(conditions, members) {
            Ok(time) => Ok(time),
            Err(error) => Err(Unwritten::AtLast(error)),
        }
    }
}

//! Batches with conditions: what was read still stands, and then the members are written, in one
//! step.
ghost use Rattle.std.specs.Prelude.{◌≡◌};
ghost use Rattle.clsm_store.specs.Promises.{TriesToWriteBatchIf, WritesBatchIf};

use crate::caller::Caller;
use crate::seat::Seat;
use crate::store::Store;
use clsm_model::{Change, Time};
use clsm_store_calls::{
    BatchIfError, Condition, ConditionalBatch, TryBatchIfError, batch_if, pin_after_batch_if,
    pin_after_try_batch_if, try_batch_if,
};
use clsm_words::Pace;
use std::sync::Wait;

impl<P: Pace> Store<P> {
    /// Writes all members as one batch, as `batch`, if each condition holds at the batch's own time,
    /// and answers that time: below it the map has what the conditions say, and from it on what the
    /// members say. With no member it is a test of the conditions alone, answered with a time at
    /// which all hold, which is the seat's new due; nothing is recorded then. A condition
    /// says what a key has, or how many keys of a range have a value: the rows that a scan found and
    /// their number say that the range is the same.
    ///
    /// It holds the lock alone, once, and tests and writes in that hold, so that no write of anybody
    /// comes between: it waits until no writer is inside, and keeps other writers out meanwhile, but
    /// no reader. It makes a search for each key, and for a count the looks of a count of that
    /// range. It takes no memory; in the hold it gives up no time and loses no exchange.
    ///
    /// Refused, in this order: with `TooLong` if there are more members than an epoch has cells,
    /// `Keep` if one keeps its key, each before it enters the lock; with `Unmet` and the place of
    /// the first condition that does not hold at the clock, which is the seat's new due;
    /// with `Full` if all hold, but fewer times are left of the epoch than there are members.
    /// Nothing was written then, and but for that due the seat is as before. (The compare and then
    /// of etcd's transactions; Sinfonia's minitransactions.)
    pub fn batch_if<R: Wait>(
        &self,
        rt: &R,
        seat: &mut Seat,
        conditions: &[Condition],
        members: &[(u64, Change)],
    ) -> Result<Time, BatchIfError>
        requires { seat.old.store ≡ self.now }
        ensures { WritesBatchIf seat.old seat.new conditions.now members.now result }
    {
        let asked = ConditionalBatch {
            conditions,
            members,
        };
        let answer = batch_if(rt, &self.words, &mut seat.raw, seat.pin, &asked);
        seat.pin = pin_after_batch_if(seat.pin, &answer);
        answer
    }

    /// Writes all members as one batch if each condition holds, as `batch_if`, but tries the lock
    /// once and never waits. Refused as `batch_if`, and behind the refusals that come before the
    /// lock also with `Busy` if somebody held it, shared or alone: the seat is then as before, but
    /// for its count of such refusals.
    pub fn try_batch_if(
        &self,
        seat: &mut Seat,
        conditions: &[Condition],
        members: &[(u64, Change)],
    ) -> Result<Time, TryBatchIfError>
        requires { seat.old.store ≡ self.now }
        ensures { TriesToWriteBatchIf seat.old seat.new conditions.now members.now result }
    {
        let asked = ConditionalBatch {
            conditions,
            members,
        };
        let answer = try_batch_if(&self.words, &mut seat.raw, seat.pin, &asked);
        seat.pin = pin_after_try_batch_if(seat.pin, &answer);
        answer
    }
}

impl<'a, P: Pace> Caller<'a, P> {
    /// As `Store::batch_if`.
    pub fn batch_if<R: Wait>(
        &mut self,
        rt: &R,
        conditions: &[Condition],
        members: &[(u64, Change)],
    ) -> Result<Time, BatchIfError>
        ensures { WritesBatchIf self.old.seat self.new.seat conditions.now members.now result }
    {
        self.store.batch_if(rt, &mut self.seat, conditions, members)
    }

    /// As `Store::try_batch_if`.
    pub fn try_batch_if(
        &mut self,
        conditions: &[Condition],
        members: &[(u64, Change)],
    ) -> Result<Time, TryBatchIfError>
        ensures { TriesToWriteBatchIf self.old.seat self.new.seat conditions.now members.now result }
    {
        self.store.try_batch_if(&mut self.seat, conditions, members)
    }
}

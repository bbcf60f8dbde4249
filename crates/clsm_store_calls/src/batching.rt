//! Batches at the words: all members are staged in a hold of the lock alone, and become visible by
//! one commit.
ghost use Rattle.std.specs.Prelude.{◌≡◌, ◌≢◌, ◌∷◌, [], false, length, IfOk, IfErr};
ghost use Rattle.clsm_model.specs.declared.slot.Change.TheVariants.{Keep};
ghost use Rattle.clsm_model.specs.declared.record.Deed.TheVariants.{Batch as Group};
ghost use Rattle.clsm_model.specs.Right.{AreWrites};
ghost use Rattle.clsm_model.specs.Seats.{FitsDeed};
ghost use Rattle.clsm_words.specs.Plays.{IsSeatOf};
ghost use Rattle.clsm_store_calls.specs.Batching.{CountsBatch, CountsTryBatch, FindsNoRoomFor, IsAlone, IsNoBatch, MayStage};
ghost use Rattle.clsm_store_calls.specs.Batching.{RefusesBatch, RefusesTryBatch, StagesAll, WritesAll};
ghost use Rattle.clsm_store_calls.specs.Resting.{IsAtRest};
ghost use Rattle.clsm_store_calls.specs.Tally.{looked, tally_of};

use crate::changing::value_set;
use crate::refusal::{BatchError, TryBatchError};
use crate::writing::deed_of;
use clsm_lock::{lock_exclusive, try_lock_exclusive, unlock_exclusive};
use clsm_memtable::{
    DrawnCell, EntryState, Lookahead, Start, commit, decide_member, look_room, stage,
};
use clsm_model::{Change, Time, are_writes};
use clsm_search::leave_hints;
use clsm_words::{Pace, RawSeat, Words};
use std::sync::Wait;

/// Whether the members are a batch of a store with so many cells, or why not.
fn check_members(members: &[(u64, Change)], cells: u64) -> Result<(), BatchError>
    ensures batch { IfOk result (λ _. FitsDeed cells (Group members.now)) }
    ensures refused { IfErr result (IsNoBatch cells members.now) }
{
    if members.is_empty() {
        return Err(BatchError::Empty);
    }
    if members.len() as u64 > cells {
        return Err(BatchError::TooLong);
    }
    if !are_writes(members) {
        return Err(BatchError::Keep);
    }
    Ok(())
}

/// The next member of a batch, and its time.
#[derive(Drop)]
struct Turn {
    time: Time,
    member: (u64, Change),
}

/// Stages the next member: takes its time, fills its cell, enters that into its chain and into the
/// ordered list, and decides it.
fn stage_member<P: Pace>(
    words: &Words<P>,
    seat: &mut RawSeat,
    turn: &Turn,
    lookahead: &mut Lookahead,
)
    requires of { IsSeatOf words.now seat.old }
    requires may { MayStage seat.old.knows turn.now.time 1 }
    requires writes { turn.now.member.1 ≢ Keep }
    ensures of { IsSeatOf words.now seat.new }
    ensures staged { StagesAll seat.old.knows seat.new.knows (turn.now.member ∷ []) }
{
    let time = turn.time;
    let key = turn.member.0;
    let cell = DrawnCell { time, key };
    let value = value_set(&turn.member.1);
    stage(words, seat, cell, value.as_ref());
    seat.show_invariant();
    let guess = lookahead.next(words, seat, time);
    seat.show_invariant();
    let Ok(placement) = cell.enter(words, seat, &Start::hinted(guess), EntryState::Unlinked) else {
        unreachable!()
    };
    decide_member(words, seat, time, &deed_of(key, &value));
    seat.show_invariant();
    leave_hints(words, seat, time, &placement.trace);
    seat.show_invariant();
}

/// Stages all members, in their order, from this time on.
pub(crate) fn stage_all<P: Pace>(
    words: &Words<P>,
    seat: &mut RawSeat,
    first: Time,
    members: &[(u64, Change)],
)
    requires of { IsSeatOf words.now seat.old }
    requires may { MayStage seat.old.knows first (length members.now) }
    requires writes { AreWrites members.now }
    ensures of { IsSeatOf words.now seat.new }
    ensures staged { StagesAll seat.old.knows seat.new.knows members.now }
{
    let mut lookahead = Lookahead::new(members);
    let mut time = first;
    for member in members {
        let turn = Turn {
            time,
            member: *member,
        };
        stage_member(words, seat, &turn, &mut lookahead);
        time += 1;
    }
}

/// Stages the batch and commits it, if its members fit between the clock and the limit.
fn batch_in_hold<P: Pace>(
    words: &Words<P>,
    seat: &mut RawSeat,
    members: &[(u64, Change)],
) -> Result<Time, BatchError>
    requires of { IsSeatOf words.now seat.old }
    requires alone { IsAlone seat.old.knows }
    requires uncommitted { seat.old.knows.view.committed ≡ false }
    requires fits { FitsDeed seat.old.knows.layout.cells (Group members.now) }
    ensures of { IsSeatOf words.now seat.new }
    ensures alone { IsAlone seat.new.knows }
    ensures counts { tally_of seat.new.knows ≡ looked (tally_of seat.old.knows) (tally_of seat.new.knows) }
    ensures written { IfOk result (WritesAll seat.old.knows seat.new.knows members.now) }
    ensures refused { IfErr result (FindsNoRoomFor seat.old.knows seat.new.knows members.now) }
{
    let room = look_room(words, seat);
    if members.len() as u64 > room.limit - room.clock {
        return Err(BatchError::Full { time: room.clock });
    }
    stage_all(words, seat, room.clock, members);
    commit(words, seat, room.clock, members);
    Ok(room.clock)
}

/// Writes the members as one batch, at consecutive times in their order, and waits for the lock.
pub fn batch<P: Pace, R: Wait>(
    rt: &R,
    words: &Words<P>,
    seat: &mut RawSeat,
    members: &[(u64, Change)],
) -> Result<Time, BatchError>
    requires of { IsSeatOf words.now seat.old }
    requires rests { IsAtRest seat.old.knows }
    ensures of { IsSeatOf words.now seat.new }
    ensures rests { IsAtRest seat.new.knows }
    ensures written { IfOk result (WritesAll seat.old.knows seat.new.knows members.now) }
    ensures refused { IfErr result (RefusesBatch seat.old.knows seat.new.knows members.now) }
    ensures counts { CountsBatch (tally_of seat.old.knows) (tally_of seat.new.knows) result }
{
    check_members(members, words.cells())?;
    seat.show_invariant();
    lock_exclusive(rt, words, seat);
    let answer = batch_in_hold(words, seat, members);
    unlock_exclusive(words, seat);
    answer
}

/// Tries once to write the members as one batch, at consecutive times in their order.
pub fn try_batch<P: Pace>(
    words: &Words<P>,
    seat: &mut RawSeat,
    members: &[(u64, Change)],
) -> Result<Time, TryBatchError>
    requires of { IsSeatOf words.now seat.old }
    requires rests { IsAtRest seat.old.knows }
    ensures of { IsSeatOf words.now seat.new }
    ensures rests { IsAtRest seat.new.knows }
    ensures written { IfOk result (WritesAll seat.old.knows seat.new.knows members.now) }
    ensures refused { IfErr result (RefusesTryBatch seat.old.knows seat.new.knows members.now) }
    ensures counts { CountsTryBatch (tally_of seat.old.knows) (tally_of seat.new.knows) result }
{
    if let Err(error) = check_members(members, words.cells()) {
        return Err(TryBatchError::Refused(error));
    }
    seat.show_invariant();
    if try_lock_exclusive(words, seat).is_err() {
        return Err(TryBatchError::Busy);
    }
    let answer = batch_in_hold(words, seat, members);
    unlock_exclusive(words, seat);
    match answer {
        Ok(time) => Ok(time),
        Err(error) => Err(TryBatchError::Refused(error)),
    }
}

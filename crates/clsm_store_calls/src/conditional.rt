//! Batches with conditions at the words: in one hold of the lock alone all conditions are tested at
//! the clock, and the members written from there on.
ghost use Rattle.std.specs.Prelude.{◌≡◌, ◌≤◌, [], None, IfErr, IfNone, IfOk, IfSome, cond, false, length};
ghost use Rattle.clsm_model.specs.{History.plain, Right.AreWrites};
ghost use Rattle.clsm_law.specs.declared.step.End.TheVariants.{Meeting, Neither};
ghost use Rattle.clsm_words.specs.Plays.{IsSeatOf};
ghost use Rattle.clsm_store_calls.specs.Batching.{IsAlone, MayStage};
ghost use Rattle.clsm_store_calls.specs.Conditional.{ActsAlone, AnswersIf, AreUnwritable, AreWritable, BeginsAlone, CountsBatchIf, CountsTryBatchIf};
ghost use Rattle.clsm_store_calls.specs.Conditional.{IsRefusedBatchIf, IsRefusedTryBatchIf, MeetsAll, RefusesAlone, TestsAlone, WritesAlone, WritesFrom};
ghost use Rattle.clsm_store_calls.specs.Conditional.{has_entered, has_entered_once, is_passed, pin_behind};
ghost use Rattle.clsm_store_calls.specs.Conditions.{AllHold, IsFirstUnmet};
ghost use Rattle.clsm_store_calls.specs.{Resting.RestsAt, Resting.seat_of};
ghost use Rattle.clsm_store_calls.specs.Tally.{HasRead, tally_of};

use crate::batching::stage_all;
use crate::conditions::{Condition, first_unmet};
use crate::refusal::{BatchIfError, TryBatchIfError};
use clsm_law::{End, Word};
use clsm_lock::{lock_exclusive, try_lock_exclusive, unlock_exclusive};
use clsm_memtable::{commit, settle_below};
use clsm_model::{Change, Time, are_writes};
use clsm_pins::{pin, unpin};
use clsm_scan::ReadPoint;
use clsm_words::{Pace, RawSeat, Words};
use std::sync::Wait;

/// A batch with conditions: what has to hold, and what is written then.
#[derive(Clone, Copy)]
pub struct ConditionalBatch<'a> {
    pub conditions: &'a [Condition],
    pub members: &'a [(u64, Change)],
}

/// Whether the members, of which there may be none, can be written in an epoch of so many cells, or
/// why not.
fn check_writable(members: &[(u64, Change)], cells: u64) -> Result<(), BatchIfError>
    ensures writable { IfOk result (λ _. AreWritable cells members.now) }
    ensures refused { IfErr result (AreUnwritable cells members.now) }
{
    if members.len() as u64 > cells {
        return Err(BatchIfError::TooLong);
    }
    if !are_writes(members) {
        return Err(BatchIfError::Keep);
    }
    Ok(())
}

/// Where a read in a hold stands, whose time is the clock; and the limit, up to which times from
/// the clock on are left.
#[derive(Clone, Copy)]
struct HeldPoint {
    point: ReadPoint,
    limit: Time,
}

/// Begins a read in a hold of the lock alone, below whose time all is settled. The pin comes before
/// the look at the clock, since FRONT is raised only to a clock that a read looked at.
fn begin_alone<P: Pace>(words: &Words<P>, seat: &mut RawSeat, pin_word: u64) -> HeldPoint
    requires of { IsSeatOf words.now seat.old }
    requires alone { IsAlone seat.old.knows }
    requires pin { pin_word ≡ seat.old.knows.view.pin }
    ensures of { IsSeatOf words.now seat.new }
    ensures begins { BeginsAlone seat.old.knows seat.new.knows result.point.component result.point.until result.limit }
{
    let component = pin(words, seat, pin_word);
    seat.show_invariant();
    let limit = words.look(seat, Word::Limit);
    let until = words.look(seat, Word::Clock);
    settle_below(words, seat, component, until);
    let point = ReadPoint { component, until };
    HeldPoint { point, limit }
}

/// What the tests in a hold found: the place of the first condition that does not hold, if one does
/// not; the clock, which is their time; and the limit.
#[derive(Clone, Copy)]
struct Tested {
    unmet: Option<usize>,
    clock: Time,
    limit: Time,
}

/// How the read of the tests ends, with no record: with a meeting, unless the batch is written.
fn end_of_tests(unmet: &Option<usize>, members: &[(u64, Change)]) -> End
    ensures { result ≡ cond (is_passed unmet.now members.now) Neither Meeting }
{
    if unmet.is_none() && !members.is_empty() {
        return End::Neither;
    }
    End::Meeting
}

/// Tests the conditions of the batch at the clock, in a hold of the lock alone.
fn test_alone<P: Pace>(
    words: &Words<P>,
    seat: &mut RawSeat,
    pin_word: u64,
    asked: &ConditionalBatch<'_>,
) -> Tested
    requires of { IsSeatOf words.now seat.old }
    requires alone { IsAlone seat.old.knows }
    requires pin { pin_word ≡ seat.old.knows.view.pin }
    ensures of { IsSeatOf words.now seat.new }
    ensures tests { TestsAlone seat.old.knows seat.new.knows result.clock result.limit (is_passed result.unmet asked.now.members.now) }
    ensures all { IfNone result.unmet (AllHold (plain seat.new.knows.past) result.clock asked.now.conditions.now) }
    ensures first { IfSome result.unmet (IsFirstUnmet (plain seat.new.knows.past) result.clock asked.now.conditions.now) }
{
    let HeldPoint { point, limit } = begin_alone(words, seat, pin_word);
    let unmet = first_unmet(words, seat, point, asked.conditions);
    let end = end_of_tests(&unmet, asked.members);
    seat.show_invariant();
    unpin(words, seat, pin_word.wrapping_add(1), &end);
    let clock = point.until;
    Tested {
        unmet,
        clock,
        limit,
    }
}

/// Writes the members as one batch from this time on, if there is one.
fn write_from<P: Pace>(words: &Words<P>, seat: &mut RawSeat, first: Time, members: &[(u64, Change)])
    requires of { IsSeatOf words.now seat.old }
    requires may { MayStage seat.old.knows first (length members.now) }
    requires unstaged { seat.old.knows.view.staged ≡ [] }
    requires writes { AreWrites members.now }
    ensures of { IsSeatOf words.now seat.new }
    ensures writes { WritesFrom seat.old.knows seat.new.knows first members.now }
{
    if members.is_empty() {
        return;
    }
    stage_all(words, seat, first, members);
    commit(words, seat, first, members);
}

/// Tests the conditions of the batch, and writes its members, if all hold and there is room.
fn batch_if_alone<P: Pace>(
    words: &Words<P>,
    seat: &mut RawSeat,
    pin_word: u64,
    asked: &ConditionalBatch<'_>,
) -> Result<Time, BatchIfError>
    requires of { IsSeatOf words.now seat.old }
    requires alone { IsAlone seat.old.knows }
    requires uncommitted { seat.old.knows.view.committed ≡ false }
    requires pin { pin_word ≡ seat.old.knows.view.pin }
    requires writes { AreWrites asked.now.members.now }
    ensures of { IsSeatOf words.now seat.new }
    ensures acts { ActsAlone seat.old.knows seat.new.knows }
    ensures written { IfOk result (WritesAlone seat.old.knows seat.new.knows asked.now.conditions.now asked.now.members.now) }
    ensures refused { IfErr result (RefusesAlone seat.old.knows seat.new.knows asked.now.conditions.now asked.now.members.now) }
{
    let Tested {
        unmet,
        clock,
        limit,
    } = test_alone(words, seat, pin_word, asked);
    if let Some(index) = unmet {
        return Err(BatchIfError::Unmet { index, time: clock });
    }
    if asked.members.len() as u64 > limit - clock {
        return Err(BatchIfError::Full { time: clock });
    }
    write_from(words, seat, clock, asked.members);
    Ok(clock)
}

/// The pin word after a call that found this one and answered so.
pub fn pin_after_batch_if(pin_word: u64, answer: &Result<Time, BatchIfError>) -> u64
    ensures { result ≡ pin_behind (has_entered answer.now) pin_word }
{
    match answer {
        Err(BatchIfError::TooLong | BatchIfError::Keep) => pin_word,
        _ => pin_word.wrapping_add(2),
    }
}

/// The same after a try.
pub fn pin_after_try_batch_if(pin_word: u64, answer: &Result<Time, TryBatchIfError>) -> u64
    ensures { result ≡ pin_behind (has_entered_once answer.now) pin_word }
{
    match answer {
        Err(TryBatchIfError::Busy) => pin_word,
        Err(TryBatchIfError::Refused(BatchIfError::TooLong | BatchIfError::Keep)) => pin_word,
        _ => pin_word.wrapping_add(2),
    }
}

/// Writes the members as one batch, at consecutive times in their order, if each condition holds at
/// the first of these; it waits for the lock.
pub fn batch_if<P: Pace, R: Wait>(
    rt: &R,
    words: &Words<P>,
    seat: &mut RawSeat,
    pin_word: u64,
    asked: &ConditionalBatch<'_>,
) -> Result<Time, BatchIfError>
    requires rests { RestsAt words.now seat.old pin_word }
    ensures rests { RestsAt words.now seat.new (pin_behind (has_entered result) pin_word) }
    ensures written { IfOk result (AnswersIf (seat_of seat.old) (seat_of seat.new) asked.now.members.now) }
    ensures holds { IfOk result (MeetsAll (seat_of seat.old) (seat_of seat.new) asked.now.conditions.now) }
    ensures writable { IfOk result (λ time. AreWritable seat.old.knows.layout.cells asked.now.members.now) }
    ensures refused { IfErr result (IsRefusedBatchIf (seat_of seat.old) (seat_of seat.new) asked.now.conditions.now asked.now.members.now) }
    ensures counts { CountsBatchIf (tally_of seat.old.knows) (tally_of seat.new.knows) result }
{
    check_writable(asked.members, words.cells())?;
    seat.show_invariant();
    lock_exclusive(rt, words, seat);
    let answer = batch_if_alone(words, seat, pin_word, asked);
    unlock_exclusive(words, seat);
    answer
}

/// Tries once to write the members as one batch, at consecutive times in their order, if each
/// condition holds at the first of these.
pub fn try_batch_if<P: Pace>(
    words: &Words<P>,
    seat: &mut RawSeat,
    pin_word: u64,
    asked: &ConditionalBatch<'_>,
) -> Result<Time, TryBatchIfError>
    requires rests { RestsAt words.now seat.old pin_word }
    ensures rests { RestsAt words.now seat.new (pin_behind (has_entered_once result) pin_word) }
    ensures written { IfOk result (AnswersIf (seat_of seat.old) (seat_of seat.new) asked.now.members.now) }
    ensures holds { IfOk result (MeetsAll (seat_of seat.old) (seat_of seat.new) asked.now.conditions.now) }
    ensures writable { IfOk result (λ time. AreWritable seat.old.knows.layout.cells asked.now.members.now) }
    ensures refused { IfErr result (IsRefusedTryBatchIf (seat_of seat.old) (seat_of seat.new) asked.now.conditions.now asked.now.members.now) }
    ensures counts { CountsTryBatchIf (tally_of seat.old.knows) (tally_of seat.new.knows) result }
{
    if let Err(error) = check_writable(asked.members, words.cells()) {
        return Err(TryBatchIfError::Refused(error));
    }
    seat.show_invariant();
    if try_lock_exclusive(words, seat).is_err() {
        return Err(TryBatchIfError::Busy);
    }
    let answer = batch_if_alone(words, seat, pin_word, asked);
    unlock_exclusive(words, seat);
    match answer {
        Ok(time) => Ok(time),
        Err(error) => Err(TryBatchIfError::Refused(error)),
    }
}

//! Writes that wait for room: each is tried again once the merger has made room for it.
ghost use Rattle.std.specs.Prelude.{◌≡◌, option_copied};
ghost use Rattle.clsm_store_calls.specs.Resting.{deed_of};
ghost use Rattle.clsm_store.specs.Promises.{Writes, WritesBatch};
ghost use Rattle.clsm_session.specs.Promises.{WaitsToChangeBy, WaitsToWrite, WaitsToWriteBatch};

use crate::board::Board;
use crate::refusal::{BatchRefused, Refused};
use clsm_model::Key;
use clsm_store::{BatchError, Caller, Change, Free, Full, Rmw, Time, Value};
use std::sync::Wait;

/// A write is tried no more often than this, and then waits forever: in centuries, as each try
/// takes the lock. A seat counts its holds of the lock modulo 2^64, so that fewer always move its
/// count.
pub(crate) const MOST_TRIES: u64 = u64::MAX;

/// Tries to write the value at the key, or with none to remove it.
fn try_write<'a, R: Wait>(
    rt: &R,
    caller: &mut Caller<'a, Free>,
    key: Key,
    value: Option<&Value>,
) -> Result<Time, Full>
    ensures { Writes caller.old.seat caller.new.seat (deed_of key (option_copied value.entry)) result }
{
    match value {
        Some(value) => caller.put(rt, key, *value),
        None => caller.remove(rt, key),
    }
}

/// As `SessionCaller::put`, or with no value as `SessionCaller::remove`.
#[tactic(auto, using(crate::proofs::Waiting::full_after))]
pub(crate) fn write<'a, R: Wait>(
    rt: &R,
    board: &Board,
    caller: &mut Caller<'a, Free>,
    key: Key,
    value: Option<&Value>,
) -> Result<Time, Refused>
    requires cells { board.now.cells ≡ caller.old.seat.store.layout.cells }
    ensures { WaitsToWrite caller.old.seat caller.new.seat (deed_of key (option_copied value.entry)) result }
{
    let mut tries = 0;
    for _ in rt.forever() {
        if tries == MOST_TRIES {
            continue;
        }
        tries += 1;
        board.gate.let_in(rt);
        match try_write(rt, caller, key, value) {
            Ok(time) => {
                board.note_write(rt, time);
                return Ok(time);
            }
            Err(full) => board.wait_for_room(rt, full.time)?,
        }
    }
    unreachable!()
}

/// As `SessionCaller::rmw`.
#[tactic(auto, using(crate::proofs::Waiting::full_after))]
pub(crate) fn rmw<'a, R: Wait, F: Fn(Option<Value>) -> Change>(
    rt: &R,
    board: &Board,
    caller: &mut Caller<'a, Free>,
    key: Key,
    f: &F,
) -> Result<Rmw, Refused>
    requires callable { F.IsAlwaysCallable f.now }
    requires cells { board.now.cells ≡ caller.old.seat.store.layout.cells }
    ensures { WaitsToChangeBy caller.old.seat caller.new.seat key (F.post f.now) result }
{
    let mut tries = 0;
    for _ in rt.forever() {
        if tries == MOST_TRIES {
            continue;
        }
        tries += 1;
        board.gate.let_in(rt);
        match caller.rmw(rt, key, f) {
            Ok(changed) => {
                board.note_write(rt, changed.time);
                return Ok(changed);
            }
            Err(full) => board.wait_for_room(rt, full.time)?,
        }
    }
    unreachable!()
}

/// Tries to write the members, which other writes let in first.
fn write_alone<'a, R: Wait>(
    rt: &R,
    board: &Board,
    caller: &mut Caller<'a, Free>,
    members: &[(u64, Change)],
) -> Result<Time, BatchError>
    ensures { WritesBatch caller.old.seat caller.new.seat members.now result }
{
    board.gate.come(rt);
    let came = caller.batch(rt, members);
    board.gate.go(rt);
    came
}

/// As `SessionCaller::batch`.
#[tactic(auto, using(crate::proofs::Waiting::refuses_trans, crate::proofs::Waiting::cancels_trans, crate::proofs::Waiting::no_room_after))]
pub(crate) fn batch<'a, R: Wait>(
    rt: &R,
    board: &Board,
    caller: &mut Caller<'a, Free>,
    members: &[(u64, Change)],
) -> Result<Time, BatchRefused>
    requires cells { board.now.cells ≡ caller.old.seat.store.layout.cells }
    ensures { WaitsToWriteBatch caller.old.seat caller.new.seat members.now result }
{
    let mut tries = 0;
    for _ in rt.forever() {
        if tries == MOST_TRIES {
            continue;
        }
        tries += 1;
        match write_alone(rt, board, caller, members) {
            Ok(time) => {
                board.note_write(rt, time);
                return Ok(time);
            }
            Err(BatchError::Full { time }) => {
                if let Err(refused) = board.wait_for_room(rt, time) {
                    return Err(BatchRefused::NoRoom(refused));
                }
            }
            Err(BatchError::Empty) => return Err(BatchRefused::Empty),
            Err(BatchError::TooLong) => return Err(BatchRefused::TooLong),
            Err(BatchError::Keep) => return Err(BatchRefused::Keep),
        }
    }
    unreachable!()
}

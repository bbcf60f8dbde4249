//! Batches with conditions that wait for room.
ghost use Rattle.std.specs.Prelude.{◌≡◌};
ghost use Rattle.clsm_store.specs.Promises.{WritesBatchIf};
ghost use Rattle.clsm_session.specs.Promises.{WaitsToWriteBatchIf};

use crate::board::Board;
use crate::refusal::BatchIfRefused;
use crate::writing::MOST_TRIES;
use clsm_store::{BatchIfError, Caller, Change, Condition, Free, Time};
use std::sync::Wait;

/// Tries to write the members under the conditions, which other writes let in first.
fn write_alone<'a, R: Wait>(
    rt: &R,
    board: &Board,
    caller: &mut Caller<'a, Free>,
    conditions: &[Condition],
    members: &[(u64, Change)],
) -> Result<Time, BatchIfError>
    ensures { WritesBatchIf caller.old.seat caller.new.seat conditions.now members.now result }
{
    board.gate.come(rt);
    let came = caller.batch_if(rt, conditions, members);
    board.gate.go(rt);
    came
}

/// As `SessionCaller::batch_if`.
pub(crate) fn batch_if<'a, R: Wait>(
    rt: &R,
    board: &Board,
    caller: &mut Caller<'a, Free>,
    conditions: &[Condition],
    members: &[(u64, Change)],
) -> Result<Time, BatchIfRefused>
    requires cells { board.now.cells ≡ caller.old.seat.store.layout.cells }
    ensures { WaitsToWriteBatchIf caller.old.seat caller.new.seat conditions.now members.now result }
{
    let mut tries = 0;
    for _ in rt.forever() {
        if tries == MOST_TRIES {
            continue;
        }
        tries += 1;
        match write_alone(rt, board, caller, conditions, members) {
            Ok(time) => {
                board.note_write(rt, time);
                return Ok(time);
            }
            Err(BatchIfError::Full { time }) => {
                if let Err(refused) = board.wait_for_room(rt, time) {
                    return Err(BatchIfRefused::NoRoom(refused));
                }
            }
            Err(BatchIfError::Unmet { index, time }) => {
                return Err(BatchIfRefused::Unmet { index, time });
            }
            Err(BatchIfError::TooLong) => return Err(BatchIfRefused::TooLong),
            Err(BatchIfError::Keep) => return Err(BatchIfRefused::Keep),
        }
    }
    unreachable!()
}

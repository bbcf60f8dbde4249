//! The merger of a session.
ghost use Rattle.std.specs.Prelude.{◌≡◌};

use crate::board::Board;
use clsm_store::merger::Merger;
use clsm_store::{Clean, Free, Stopped, Store};
use std::sync::Wait;
use std::thread;

/// Freezes, merges and reclaims whenever it is called, until all callers have returned.
pub(crate) fn merge_beside<R: Wait>(rt: &R, store: &Store<Free>, merger: Clean, board: &Board)
    requires { merger.merger.store ≡ store.now }
{
    let mut merger = Merger::new(store, merger);
    for _ in rt.forever() {
        let Some(calls) = board.wait_for_call(rt) else {
            break;
        };
        merger = serve(rt, merger, board, calls);
    }
}

/// Freezes the epoch, unless one is frozen or a component is retired, and goes on as far as it
/// can. Callers find room as soon as the epoch is frozen, and are refused if it can't be frozen or
/// merged.
fn serve<'a, R: Wait>(
    rt: &R,
    merger: Merger<'a, Free>,
    board: &Board,
    calls: u64,
) -> Merger<'a, Free> {
    board.gate.come(rt);
    let (merger, frozen) = merger.freeze(rt);
    board.gate.go(rt);
    if let Ok(epoch) = frozen {
        board.open_epoch_behind(rt, epoch);
    }
    let (merger, swept) = merger.sweep(rt);
    match swept {
        Ok(()) => board.rest(rt),
        Err(Stopped::Pinned(_)) => {
            board.call_again(rt);
            thread::yield_now();
        }
        Err(Stopped::RunFull(_) | Stopped::Worn(_)) => board.refuse(rt, calls),
    }
    merger
}

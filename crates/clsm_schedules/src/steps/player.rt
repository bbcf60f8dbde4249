//! Who plays on the store: its seats, and its merger.
ghost use Rattle.std.specs.Prelude.{◌≡◌, All};

use crate::steps::command::{Command, MERGER, SweepPart};
use crate::steps::watch::Watch;
use clsm_model::{CallRecord, Memory};
use clsm_store::{Caller, Clean, Merger, Seat, Store};
use std::alloc::{AllocError, Global};
use std::sync::Wait;

/// A seat with its caller, or the merger.
#[derive(Drop)]
pub(crate) struct Player<'a> {
    pub(crate) number: u32,
    caller: Option<Caller<'a, Watch>>,
    merger: Option<Merger<'a, Watch>>,
    /// The records of the calls that were answered.
    pub(crate) records: Vec<CallRecord>,
    /// Whether memory was wanted.
    pub(crate) is_starved: bool,
}

impl<'a> Player<'a> {
    fn new(
        alloc: Global,
        number: u32,
        caller: Option<Caller<'a, Watch>>,
        merger: Option<Merger<'a, Watch>>,
    ) -> Player<'a> {
        Player {
            number,
            caller,
            merger,
            records: Vec::new(alloc),
            is_starved: false,
        }
    }

    /// Plays the command, if it is one of this player.
    pub(crate) fn play<R: Wait>(&mut self, rt: &R, alloc: Global, command: &Command) {
        if let Some(merger) = self.merger.take() {
            self.merger = Some(merge(rt, merger, command));
            return;
        }
        if let Some(caller) = &mut self.caller
            && let Err(_) = make(rt, alloc, caller, command, &mut self.records)
        {
            self.is_starved = true;
        }
    }
}

/// Plays the command of the merger.
fn merge<'a, R: Wait>(rt: &R, merger: Merger<'a, Watch>, command: &Command) -> Merger<'a, Watch> {
    match command {
        Command::Merger(SweepPart::Freeze) => merger.freeze(rt).0,
        Command::Merger(SweepPart::Merge) => merger.merge().0,
        Command::Merger(SweepPart::Reclaim) => merger.reclaim().0,
        Command::Call(_) | Command::Page { .. } => merger,
    }
}

/// Makes the call, and keeps the record of it if it is answered. Refused if memory runs out.
fn make<R: Wait>(
    rt: &R,
    alloc: Global,
    caller: &mut Caller<Watch>,
    command: &Command,
    records: &mut Vec<CallRecord>,
) -> Result<(), Memory> {
    let Some(call) = command.call(alloc)? else {
        return Ok(());
    };
    let answer = caller.play(rt, alloc, &call);
    if answer.wants_memory() {
        return Err(Memory);
    }
    records.extend(call.into_record(caller.seat.number(), answer))?;
    Ok(())
}

/// The players of a new store: its seats, and behind them the merger.
pub(crate) fn seat_all<'a>(
    alloc: Global,
    store: &'a Store<Watch>,
    seats: Vec<Seat>,
    merger: Clean,
) -> Result<Vec<Player<'a>>, AllocError>
    requires seats { All (λ seat. seat.store ≡ store.now) seats.items }
    requires merger { merger.merger.store ≡ store.now }
{
    let merger = Merger::new(store, merger);
    let mut players = Vec::with_capacity(alloc, seats.len())?;
    for seat in seats {
        let number = seat.number();
        let caller = Caller::new(store, seat);
        players.push(Player::new(alloc, number, Some(caller), None))?;
    }
    players.push(Player::new(alloc, MERGER, None, Some(merger)))?;
    Ok(players)
}

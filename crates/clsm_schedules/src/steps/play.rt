//! A script played on the store and on the machine.
use crate::steps::command::{Command, FIRST, OTHER, Script, Turn};
use crate::steps::machine::Machine;
use crate::steps::noted::{Made, Search, shared};
use crate::steps::player::{Player, seat_all};
use crate::steps::sizes::SIZES;
use crate::steps::watch::{Hold, Watch};
use crate::steps::wrong::Wrong;
use clsm_model::{CallRecord, Deed, PageRange, Rows};
use clsm_store::{Opened, open_paced};
use clsm_words::Kind;
use std::alloc::{AllocError, Global};
use std::sync::Wait;
use std::thread::{Threads, join};

/// What a script came to on one side: the steps of the call of the row, those of the one that is
/// made while it is held, and the records of both seats.
#[derive(Drop)]
pub(crate) struct Played {
    pub(crate) first: Vec<Kind>,
    pub(crate) other: Vec<Kind>,
    pub(crate) records: Vec<CallRecord>,
}

/// The step at each of the places.
fn kinds_at(alloc: Global, steps: &[Made], places: &[usize]) -> Result<Vec<Kind>, AllocError> {
    let mut kinds = Vec::new(alloc);
    for place in places {
        if let Some(made) = steps.get(*place) {
            kinds.push(made.kind)?;
        }
    }
    Ok(kinds)
}

/// The call of the row alone, on the machine: the places of those of its steps that the store
/// makes too, and these steps.
#[derive(Drop)]
pub(crate) struct Alone {
    pub(crate) places: Vec<usize>,
    pub(crate) kinds: Vec<Kind>,
}

impl Alone {
    pub(crate) fn new(alloc: Global, script: &Script) -> Result<Alone, Wrong> {
        let mut machine = Machine::new(alloc, script)?;
        machine.play(script, None)?;
        let steps = machine.steps(script.first.player)?;
        Ok(Alone::of(alloc, &script.first, &steps)?)
    }

    /// Those of the steps of this command that the store makes too.
    fn of(alloc: Global, turn: &Turn, steps: &[Made]) -> Result<Alone, AllocError> {
        let places = shared(alloc, Search::of(&turn.command), steps)?;
        let kinds = kinds_at(alloc, steps, &places)?;
        Ok(Alone { places, kinds })
    }
}

/// The steps of the one with this number that the store makes too.
fn shared_steps(alloc: Global, machine: &Machine, turn: &Turn) -> Result<Vec<Kind>, Wrong> {
    let steps = machine.steps(turn.player)?;
    Ok(Alone::of(alloc, turn, &steps)?.kinds)
}

/// What the script came to on the machine.
fn gather_machine(alloc: Global, script: &Script, machine: &Machine) -> Result<Played, Wrong> {
    let other = match &script.other {
        Some(other) => shared_steps(alloc, machine, other)?,
        None => Vec::new(alloc),
    };
    Ok(Played {
        first: shared_steps(alloc, machine, &script.first)?,
        other,
        records: records_of(alloc, script, machine)?,
    })
}

/// Plays the script on the machine, held before the step of the call of the row at this place, if
/// one is given. None where the other call does not end there.
pub(crate) fn play_machine(
    alloc: Global,
    script: &Script,
    hold: Option<usize>,
) -> Result<Option<Played>, Wrong> {
    let mut machine = Machine::new(alloc, script)?;
    if !machine.play(script, hold)? {
        return Ok(None);
    }
    Ok(Some(gather_machine(alloc, script, &machine)?))
}

/// The record of a page of at most so many rows, by that of the scan of its keys.
fn paged(alloc: Global, scan: &CallRecord, max: u64) -> Result<CallRecord, AllocError> {
    let Deed::Scan { lo, hi, rows } = &scan.deed else {
        return scan.clone();
    };
    let (from, hi) = (*lo, *hi);
    let all = rows.as_slice();
    let more = all.get(max as usize).map(|row| row.0);
    let mut kept = Vec::new(alloc);
    for row in all.iter().take(max as usize) {
        kept.push(*row)?;
    }
    let rows = Rows::new(kept);
    let range = PageRange { from, hi, max };
    let deed = Deed::Page { range, rows, more };
    Ok(CallRecord { deed, ..*scan })
}

/// Puts the record of a page of at most so many rows in the place of the last one, that of a scan.
fn page_last(alloc: Global, records: &mut Vec<CallRecord>, max: u64) -> Result<(), AllocError> {
    if let Some(scan) = records.pop() {
        records.push(paged(alloc, &scan, max)?)?;
    }
    Ok(())
}

/// The machine's records of both seats, with a page in the place of a scan that stands for one.
fn records_of(
    alloc: Global,
    script: &Script,
    machine: &Machine,
) -> Result<Vec<CallRecord>, AllocError> {
    let mut records = Vec::new(alloc);
    for seat in [FIRST, OTHER] {
        for record in machine.records(seat) {
            records.push(record.clone()?)?;
        }
        if let Some(max) = script.page_of(seat) {
            page_last(alloc, &mut records, max)?;
        }
    }
    Ok(records)
}

/// Makes the call of the row in this thread, and the other one in a thread of its own while that
/// one is held.
fn play_both<'a, R: Threads + Wait + Sync>(
    rt: &R,
    alloc: Global,
    watch: &Watch,
    first: (Player<'a>, Command),
    other: (Player<'a>, Command),
) -> (Player<'a>, Player<'a>) {
    let (mut held, command) = first;
    let (mut free, beside) = other;
    let (free, held) = join(
        rt,
        move || {
            if watch.wait_for_hold() {
                free.play(rt, alloc, &beside);
                watch.let_go();
            }
            free
        },
        move || {
            held.play(rt, alloc, &command);
            watch.end();
            held
        },
    );
    (held, free)
}

/// The players with these two behind them.
fn join_players<'a>(
    mut players: Vec<Player<'a>>,
    held: Player<'a>,
    free: Player<'a>,
) -> Result<Vec<Player<'a>>, AllocError> {
    players.push(held)?;
    players.push(free)?;
    Ok(players)
}

/// Plays the row behind the state.
fn play_row<'a, R: Threads + Wait + Sync>(
    rt: &R,
    alloc: Global,
    watch: &Watch,
    script: &Script,
    mut players: Vec<Player<'a>>,
) -> Result<Vec<Player<'a>>, AllocError> {
    let first = script.first.player as usize;
    let Some(other) = &script.other else {
        if let Some(player) = players.get_mut(first) {
            player.play(rt, alloc, &script.first.command);
        }
        return Ok(players);
    };
    let second = other.player as usize;
    let (low, high) = (first.min(second), first.max(second));
    if low == high || high >= players.len() {
        return Ok(players);
    }
    let last = players.remove(high);
    let before = players.remove(low);
    let (held, free) = if first == low {
        (before, last)
    } else {
        (last, before)
    };
    let held = (held, script.first.command);
    let (held, free) = play_both(rt, alloc, watch, held, (free, other.command));
    join_players(players, held, free)
}

/// Plays the state, and behind it the row.
fn play_on<R: Threads + Wait + Sync>(
    rt: &R,
    alloc: Global,
    watch: &Watch,
    script: &Script,
    mut players: Vec<Player>,
) -> Result<Played, Wrong> {
    for turn in &script.state {
        if let Some(player) = players.get_mut(turn.player as usize) {
            player.play(rt, alloc, &turn.command);
        }
    }
    watch.open();
    let players = play_row(rt, alloc, watch, script, players)?;
    gather(alloc, watch, script, &players)
}

/// Plays the script on a store, held before the last of these steps of the call of the row.
pub(crate) fn play_store<R: Threads + Wait + Sync>(
    rt: &R,
    alloc: Global,
    script: &Script,
    steps: Vec<Kind>,
) -> Result<Played, Wrong> {
    let hold = Hold {
        player: script.first.player,
        steps,
    };
    let watch = Watch::new(alloc, hold)?;
    let Ok(opened) = open_paced(alloc, SIZES, watch) else {
        return Err(Wrong::Memory);
    };
    let Opened {
        store,
        seats,
        merger,
    } = opened;
    let players = seat_all(alloc, &store, seats, merger)?;
    play_on(rt, alloc, store.pace(), script, players)
}

/// What the store came to.
fn gather(
    alloc: Global,
    watch: &Watch,
    script: &Script,
    players: &[Player],
) -> Result<Played, Wrong> {
    let mut records = Vec::new(alloc);
    for seat in [FIRST, OTHER] {
        append(&mut records, players, seat)?;
    }
    let other = match &script.other {
        Some(other) => watch.steps(alloc, other.player)?,
        None => Vec::new(alloc),
    };
    Ok(Played {
        first: watch.steps(alloc, script.first.player)?,
        other,
        records,
    })
}

/// Puts the records of the player with this number behind the others.
fn append(records: &mut Vec<CallRecord>, players: &[Player], number: u32) -> Result<(), Wrong> {
    for player in players {
        if player.is_starved {
            return Err(Wrong::Memory);
        }
        if player.number == number {
            for record in &player.records {
                records.push(record.clone()?)?;
            }
        }
    }
    Ok(())
}

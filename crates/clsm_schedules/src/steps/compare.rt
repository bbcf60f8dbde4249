//! What the store and the machine make of a row.
use crate::steps::command::Script;
use crate::steps::noted::{Difference, Search, differ};
use crate::steps::play::{Alone, Played, play_machine, play_store};
use crate::steps::wrong::Wrong;
use clsm_words::Kind;
use std::alloc::{AllocError, Global};
use std::sync::Wait;
use std::thread::Threads;

/// What a row came to.
#[derive(Clone, Copy)]
pub(crate) enum Compared {
    /// The call makes so many steps, all alike.
    Steps(usize),
    /// All is alike at so many holds; at so many more the other call waits for the one that is
    /// held.
    Holds { alike: usize, waits: usize },
    /// A step of the call of the row differs, or of the other one.
    First(Difference),
    Other(Difference),
    Records,
}

/// Where the two sides differ, if they do.
fn difference(script: &Script, store: &Played, machine: &Played) -> Option<Compared> {
    let search = Search::of(&script.first.command);
    if let Some(difference) = differ(search, &store.first, &machine.first) {
        return Some(Compared::First(difference));
    }
    if let Some(other) = &script.other
        && let Some(difference) = differ(Search::of(&other.command), &store.other, &machine.other)
    {
        return Some(Compared::Other(difference));
    }
    if store.records != machine.records {
        return Some(Compared::Records);
    }
    None
}

/// The steps up to this place.
fn steps_to(alloc: Global, kinds: &[Kind], place: usize) -> Result<Vec<Kind>, AllocError> {
    let mut steps = Vec::new(alloc);
    for kind in kinds.iter().take(place.saturating_add(1)) {
        steps.push(*kind)?;
    }
    Ok(steps)
}

/// Plays the script on both sides with the call of the row held before one of its steps. None
/// where the other call waits for it.
fn compare_held<R: Threads + Wait + Sync>(
    rt: &R,
    alloc: Global,
    script: &Script,
    hold: Option<usize>,
    steps: Vec<Kind>,
) -> Result<Option<Compared>, Wrong> {
    let Some(machine) = play_machine(alloc, script, hold)? else {
        return Ok(None);
    };
    let store = play_store(rt, alloc, script, steps)?;
    let found = difference(script, &store, &machine);
    Ok(Some(found.unwrap_or(Compared::Steps(machine.first.len()))))
}

/// Plays the script on both sides: once, or held before each step that both sides make.
pub(crate) fn compare<R: Threads + Wait + Sync>(
    rt: &R,
    alloc: Global,
    script: &Script,
) -> Result<Compared, Wrong> {
    if script.other.is_none() {
        let compared = compare_held(rt, alloc, script, None, Vec::new(alloc))?;
        return Ok(compared.unwrap_or(Compared::Records));
    }
    let alone = Alone::new(alloc, script)?;
    let (mut alike, mut waits) = (0_usize, 0_usize);
    for (number, place) in alone.places.iter().enumerate() {
        let steps = steps_to(alloc, &alone.kinds, number)?;
        match compare_held(rt, alloc, script, Some(*place), steps)? {
            Some(Compared::Steps(_)) => alike = alike.saturating_add(1),
            Some(found) => return Ok(found),
            None => waits = waits.saturating_add(1),
        }
    }
    Ok(Compared::Holds { alike, waits })
}

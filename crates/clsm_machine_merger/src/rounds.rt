//! Rounds of looks at the snapshot words, and the floor that a whole round gives.
ghost use Rattle.std.specs.Prelude.{◌≡◌, ◌<◌};
ghost use Rattle.clsm_law.specs.Merging.{floor_by, is_whole, least, least_noted, least_or, noted_by, noted_time, round_by, round_end, rounds_by};
ghost use Rattle.clsm_law.specs.Deciding.{IsMergerSmall};

use crate::words::epoch_end;
use clsm_law::{Layout, MergerView, Round};
use clsm_model::Time;

/// The time that the snapshot word notes.
fn noted_time(found: u64) -> Option<Time>
    ensures { result ≡ noted_time found }
{
    if found == 0 { None } else { Some(found - 1) }
}

/// The less of the times that are there.
fn least(first: Option<Time>, second: Option<Time>) -> Option<Time>
    ensures { result ≡ least first second }
{
    match (first, second) {
        (None, other) => other,
        (Some(time), None) => Some(time),
        (Some(time), Some(other)) => Some(time.min(other)),
    }
}

/// The round after a look at the snapshot word of the seat: it goes on with the round, begins one,
/// or breaks it off.
pub(crate) fn round_by(
    layout: &Layout,
    round: Option<Round>,
    seat: u64,
    found: u64,
) -> Option<Round>
    requires { seat < layout.now.seats }
    ensures { result ≡ round_by round seat found }
{
    if seat == 0 {
        return Some(Round {
            next: 1,
            least: noted_time(found),
        });
    }
    match round {
        Some(round) if round.next == seat => Some(Round {
            next: seat + 1,
            least: least(round.least, noted_time(found)),
        }),
        _ => None,
    }
}

/// Whether the round has passed all seats.
fn is_whole(layout: &Layout, round: Option<Round>) -> bool
    ensures { result ≡ is_whole layout.now.seats round }
{
    match round {
        Some(round) => round.next == layout.seats,
        None => false,
    }
}

/// The least time noted in the round, or the bound where that is less.
fn least_or(bound: Time, round: Option<Round>) -> Time
    ensures { result ≡ least_or bound round }
{
    match round.and_then(|round| round.least) {
        Some(time) => bound.min(time),
        None => bound,
    }
}

/// The least time noted in the round.
fn least_noted(round: Option<Round>) -> Option<Time>
    ensures { result ≡ least_noted round }
{
    match round {
        Some(round) => round.least,
        None => None,
    }
}

/// What is left of the round: nothing, where it is whole.
pub(crate) fn round_end(layout: &Layout, round: Option<Round>) -> Option<Round>
    ensures { result ≡ round_end layout.now.seats round }
{
    if is_whole(layout, round) { None } else { round }
}

/// The floor after a look that leaves this round: a whole round raises it to the least time noted,
/// or to the end of the epoch.
pub(crate) fn floor_by(layout: &Layout, merger: &MergerView, round: Option<Round>) -> Time
    requires { IsMergerSmall layout.now merger.now }
    ensures { result ≡ floor_by layout.now merger.now round }
{
    if is_whole(layout, round) {
        merger.floor.max(least_or(epoch_end(layout, merger), round))
    } else {
        merger.floor
    }
}

/// How many rounds passed all seats, with this one.
pub(crate) fn rounds_by(layout: &Layout, merger: &MergerView, round: Option<Round>) -> u64
    ensures { result ≡ rounds_by layout.now merger.now round }
{
    if is_whole(layout, round) {
        merger.rounds.wrapping_add(1)
    } else {
        merger.rounds
    }
}

/// What the last whole round found noted, with this one.
pub(crate) fn noted_by(layout: &Layout, merger: &MergerView, round: Option<Round>) -> Option<Time>
    ensures { result ≡ noted_by layout.now merger.now round }
{
    if is_whole(layout, round) {
        least_noted(round)
    } else {
        merger.noted
    }
}

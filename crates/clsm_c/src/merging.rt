//! The merger's calls for C, on slots, as `calls`.
ghost use Rattle.clsm_store.specs.Freezing.{TryFreezes};
ghost use Rattle.clsm_store.specs.Phase.{CountsIfFrozen};
ghost use Rattle.clsm_store.specs.Sweeping.{TrySweeps};
ghost use Rattle.clsm_c.specs.Calls.{ByMerger, LooksAtPhase, TellsEntries, TellsFreeze, TellsSweep, Told};

use crate::codes::{BUSY, Code, IDLE, NO_HANDLE, OK, PINNED, RUN_FULL, WORN};
use crate::shared::SharedMerger;
use crate::slots::MergerSlot;
use crate::types::{CoreEntries, CorePhase, CoreTime, CoreTurn, CoreUsed};
use clsm_store::{Merger, Phase, Stopped, TryFroze, TrySwept, Worn};

pub(crate) fn phase_of(slot: &mut MergerSlot, answer: &mut CorePhase) -> Code
    ensures { ByMerger (LooksAtPhase answer.new result) slot.old.merger slot.new.merger result }
{
    let Some(merger) = &slot.merger else {
        return NO_HANDLE;
    };
    answer.frozen = matches!(merger.phase, Phase::Frozen(_));
    answer.retired = matches!(merger.phase, Phase::Retired(_));
    OK
}

/// The code of what a freeze came to.
fn freeze_code(came: Result<TryFroze, Worn>) -> Code
    ensures { TellsFreeze result came }
{
    match came {
        Ok(TryFroze::Done) => OK,
        Ok(TryFroze::Waited) => IDLE,
        Ok(TryFroze::Busy) => BUSY,
        Err(_) => WORN,
    }
}

pub(crate) fn try_freeze(slot: &mut MergerSlot, ask: &CoreUsed) -> Code
    ensures { ByMerger (λ before after. Told (TryFreezes ask.now.used before after)
        (TellsFreeze result)) slot.old.merger slot.new.merger result }
{
    let Some(SharedMerger { store, phase }) = slot.merger.take() else {
        return NO_HANDLE;
    };
    let merger = Merger {
        store: &store,
        phase,
    };
    let (Merger { phase, .. }, came) = merger.try_freeze_if_used(ask.used);
    slot.merger = Some(SharedMerger { store, phase });
    freeze_code(came)
}

/// Tells what a sweep came to, and which caller stopped it, if one did.
fn tell_sweep(came: Result<TrySwept, Stopped>, answer: &mut CoreTime) -> Code
    ensures { TellsSweep answer.new result came }
{
    match came {
        Ok(TrySwept::Done) => OK,
        Ok(TrySwept::Waited) => IDLE,
        Ok(TrySwept::Busy) => BUSY,
        Err(Stopped::RunFull(_)) => RUN_FULL,
        Err(Stopped::Worn(_)) => WORN,
        Err(Stopped::Pinned(seat)) => {
            answer.time = u64::from(seat.0);
            PINNED
        }
    }
}

pub(crate) fn try_sweep(slot: &mut MergerSlot, ask: &CoreUsed, answer: &mut CoreTime) -> Code
    ensures { ByMerger (λ before after. Told (TrySweeps ask.now.used before after)
        (TellsSweep answer.new result)) slot.old.merger slot.new.merger result }
{
    let Some(SharedMerger { store, phase }) = slot.merger.take() else {
        return NO_HANDLE;
    };
    let merger = Merger {
        store: &store,
        phase,
    };
    let (Merger { phase, .. }, came) = merger.try_sweep_if_used(ask.used);
    slot.merger = Some(SharedMerger { store, phase });
    tell_sweep(came, answer)
}

pub(crate) fn count_entries(slot: &mut MergerSlot, ask: &CoreTurn, answer: &mut CoreEntries) -> Code
    ensures { ByMerger (λ before after. Told (CountsIfFrozen before after ask.now.turn)
        (TellsEntries answer.new result)) slot.old.merger slot.new.merger result }
{
    answer.entries = 0;
    let Some(merger) = &mut slot.merger else {
        return NO_HANDLE;
    };
    let Ok(entries) = merger.phase.entries(&*merger.store, ask.turn) else {
        return IDLE;
    };
    answer.entries = entries;
    OK
}

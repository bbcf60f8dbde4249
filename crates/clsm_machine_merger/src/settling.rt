//! What a step of the merger makes of the times: `slots_after_merger` of
//! clsm_law/specs/Merging.antt.
ghost use Rattle.std.specs.Prelude.{◌≡◌, MatchResult};
ghost use Rattle.clsm_law.specs.Merging.{slots_after_merger};
ghost use Rattle.clsm_law.specs.Deciding.{IsMergerSmall};

use crate::words::epoch_end;
use clsm_law::{Layout, MergerView, Step};
use clsm_model::Slot;
use std::alloc::AllocError;

/// Notes what the merger's step makes of the times: where it moves the clock, the undrawn times of
/// the epoch come to nothing. Refused if memory runs out; the slots then stay as they were.
pub fn settle_merger(
    layout: &Layout,
    merger: &MergerView,
    slots: &mut Vec<Option<Slot>>,
    step: &Step,
) -> Result<(), AllocError>
    requires { IsMergerSmall layout.now merger.now }
    ensures { MatchResult result (λ _. slots.new.items ≡ slots_after_merger layout.now merger.now slots.old.items step.now)
        (λ _. slots.new.items ≡ slots.old.items) }
{
    match step {
        Step::ExtendClock => {
            let end = epoch_end(layout, merger) as usize;
            slots.resize(end.max(slots.len()), Some(Slot::Nothing))
        }
        _ => Ok(()),
    }
}

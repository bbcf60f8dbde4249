//! The word of a step of the merger, and what the step makes of it: `word_of_merger` and
//! `changed_by_merger` of clsm_law/specs/Merging.antt.
ghost use Rattle.std.specs.Prelude.{◌≡◌};
ghost use Rattle.clsm_law.specs.declared.merger.MergerView.{MergerView};
ghost use Rattle.clsm_law.specs.Merging.{changed_by_merger, word_of_merger};
ghost use Rattle.clsm_law.specs.Deciding.{IsMergerSmall};

use crate::words::epoch_end;
use clsm_law::{CANCELLED_CELL, EXCLUSIVE_HOLD, Layout, MergerView, Step, UNDECIDED_CELL, Word};

/// The word that the merger's step is on.
pub fn word_of_merger(layout: &Layout, step: &Step) -> Word
    ensures { (m : MergerView) → result ≡ word_of_merger layout.now m step.now }
{
    match step {
        Step::Look(word) | Step::WriteRun(word, _) => *word,
        Step::Pad(time) => Word::State(layout.cell_of(*time)),
        Step::ClearHead { region, chain } => Word::Head {
            region: *region,
            chain: *chain,
        },
        Step::ClearOrder(region) => Word::Order(*region),
        Step::ClearState(cell) => Word::State(*cell),
        Step::Publish => Word::Merged,
        Step::ExtendClock => Word::Clock,
        Step::ExtendLimit => Word::Limit,
        _ => Word::Lock,
    }
}

/// What the step makes of the word that it finds.
pub fn changed_by_merger(layout: &Layout, merger: &MergerView, step: &Step, found: u64) -> u64
    requires { IsMergerSmall layout.now merger.now }
    ensures { result ≡ changed_by_merger layout.now merger.now step.now found }
{
    match step {
        Step::EnterExclusive if found == 0 => EXCLUSIVE_HOLD,
        Step::LeaveExclusive => found.wrapping_sub(EXCLUSIVE_HOLD),
        Step::Pad(_) => CANCELLED_CELL,
        Step::WriteRun(_, value) => *value,
        Step::ClearHead { .. } | Step::ClearOrder(_) => 0,
        Step::ClearState(_) => UNDECIDED_CELL,
        Step::Publish => merger.merged + 1,
        Step::ExtendClock => epoch_end(layout, merger),
        Step::ExtendLimit => epoch_end(layout, merger) + layout.cells,
        _ => found,
    }
}

//! What a step makes of the times: `slots_after` of clsm_law/specs/Relation.antt.
ghost use Rattle.std.specs.Prelude.{◌≡◌, ◌<◌, List, Option, slice_set, vec_len, vec_capacity};
ghost use Rattle.clsm_model.specs.declared.slot.Slot.{Slot};
ghost use Rattle.clsm_law.specs.Relation.{slots_after};
ghost use Rattle.clsm_machine_caller.specs.Settling.{settled_by};

use crate::words::write_by;
use clsm_law::Step;
use clsm_model::{Slot, Time};

/// What a step makes of the times.
#[derive(Clone, Copy)]
pub enum Settling {
    Stays,
    /// One more time is drawn.
    Drawn,
    /// The time comes to this.
    Decided { time: Time, slot: Slot },
    Undecided(Time),
}

/// What the step that found this word makes of the times: a drawn time is one more, and a decided
/// time comes to its write, or to nothing.
pub fn settling_by(seat: u32, step: &Step, found: u64) -> Settling
    ensures { (slots : List (Option Slot)) → settled_by slots result ≡ slots_after seat slots step.now found }
{
    match step {
        Step::Draw(time) if found == *time => Settling::Drawn,
        Step::Decide(time, deed) if found == 0 => match write_by(seat, deed) {
            Some(slot) => Settling::Decided { time: *time, slot },
            None => Settling::Undecided(*time),
        },
        Step::Stage(..) => Settling::Drawn,
        Step::Cancel(time) if found == 0 => Settling::Decided {
            time: *time,
            slot: Slot::Nothing,
        },
        _ => Settling::Stays,
    }
}

/// Makes that of the slots, which need room for one more. A time that was not drawn is skipped.
pub fn settle(slots: &mut Vec<Option<Slot>>, settling: Settling)
    requires { vec_len slots.old < vec_capacity slots.old }
    ensures { slots.new.items ≡ settled_by slots.old.items settling }
{
    match settling {
        Settling::Stays => {}
        Settling::Drawn => slots.push_reserved(None),
        Settling::Decided { time, slot } => set(slots, time, Some(slot)),
        Settling::Undecided(time) => set(slots, time, None),
    }
}

fn set(slots: &mut Vec<Option<Slot>>, time: Time, slot: Option<Slot>)
    ensures { slots.new.items ≡ slice_set slots.old.items time slot }
{
    if time < slots.len() as u64 {
        slots[time as usize] = slot;
    }
}

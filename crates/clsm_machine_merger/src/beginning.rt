//! The view of the merger at its beginning.
ghost use Rattle.std.specs.Prelude.{◌≡◌, IfOk};
ghost use Rattle.clsm_law.specs.Merging.{opening};

use clsm_law::{Items, Layout, MergerView, Phase, Reader};
use std::alloc::{AllocError, Global};

/// What the merger knows of a seat at the beginning of a retirement.
pub(crate) const UNSEEN: Reader = Reader {
    first_pin: None,
    quiet: false,
    looks: 0,
};

/// The view of a merger that has done nothing yet. Refused if memory runs out.
pub fn opening(alloc: Global, layout: &Layout) -> Result<MergerView, AllocError>
    ensures { IfOk result (λ merger. merger ≡ opening layout.now) }
{
    let mut readers = Items::new(alloc);
    for _ in 0..layout.seats {
        readers.push(UNSEEN)?;
    }
    Ok(MergerView {
        phase: Phase::Clean,
        merged: 0,
        exclusive: false,
        padded: false,
        clock_extended: false,
        limit_extended: false,
        floor: 0,
        round: None,
        holds: 0,
        busy: 0,
        rounds: 0,
        noted: None,
        clock_looks: 0,
        clock_found: 0,
        merged_floor: 0,
        former_floor: 0,
        readers,
    })
}

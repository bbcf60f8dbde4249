//! What the handles of a store hold: each caller and the merger, and the store, which they share.
ghost use Rattle.std.specs.Prelude.{◌≡◌};
ghost use Rattle.std.specs.Arc.{arc_value};
ghost use Rattle.clsm_store.specs.Phase.{merger_in};

use clsm_store::{Free, Phase, Seat, Store};
use std::alloc::Global;
use std::sync::Arc;

/// A store, which lives as long as any of its handles.
pub type Shared = Arc<Store<Free>, Global>;

/// A caller: a store, one of its seats, and the allocator of what its calls collect.
#[derive(Drop)]
pub struct SharedCaller {
    pub(crate) store: Shared,
    pub(crate) alloc: Global,
    pub seat: Seat,
    pub ghost of: { seat.store ≡ arc_value store },
}

/// The merger: a store, and its token in whichever phase it is.
#[derive(Drop)]
pub struct SharedMerger {
    pub(crate) store: Shared,
    pub phase: Phase,
    pub ghost of: { (merger_in phase).store ≡ arc_value store },
}

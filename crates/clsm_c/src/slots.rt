//! What lies in C's memory: a handle, or none where it was refused.
ghost use Rattle.std.specs.Prelude.{◌≡◌};
ghost use Rattle.clsm_c.specs.Lent.{bytes_of};
ghost use Rattle.clsm_c.specs.contracts.slots.CallerSlot.{the_row as caller_row};
ghost use Rattle.clsm_c.specs.contracts.slots.MergerSlot.{the_row as merger_row};
ghost use Rattle.clsm_c.specs.contracts.slots.StoreSlot.{the_row as store_row};

use crate::opening::Handles;
use crate::shared::{SharedCaller, SharedMerger};
use crate::types::CoreRooms;
use std::mem::{align_of, size_of};

/// The words that `capi/core/clsm_core.h` reserves for each kind of handle.
pub const STORE_WORDS: usize = 24;

pub const CALLER_WORDS: usize = 32;

pub const MERGER_WORDS: usize = 24;

/// The bytes to which it aligns these words: powers of two. A caller has cache lines of its own.
pub const STORE_ALIGNMENT: usize = 16;

pub const CALLER_ALIGNMENT: usize = 64;

pub const MERGER_ALIGNMENT: usize = 16;

const _: () = prove!(size_of::<StoreSlot>() <= 8 * STORE_WORDS);

const _: () = prove!(size_of::<CallerSlot>() <= 8 * CALLER_WORDS);

const _: () = prove!(size_of::<MergerSlot>() <= 8 * MERGER_WORDS);

const _: () = prove!(STORE_ALIGNMENT % align_of::<StoreSlot>() == 0);

const _: () = prove!(CALLER_ALIGNMENT % align_of::<CallerSlot>() == 0);

const _: () = prove!(MERGER_ALIGNMENT % align_of::<MergerSlot>() == 0);

/// The handle of a store: the callers and the merger that nobody has taken yet.
#[derive(Drop)]
pub struct StoreSlot {
    pub(crate) handles: Option<Handles>,
}

/// The handle of a caller, and its seat.
#[derive(Drop)]
pub struct CallerSlot {
    pub(crate) caller: Option<SharedCaller>,
}

/// The handle of the merger.
#[derive(Drop)]
pub struct MergerSlot {
    pub(crate) merger: Option<SharedMerger>,
}

/// Only for types that may be moved to another thread: C moves its handles so.
fn may_move<T: Send>() {}

/// The bytes that each kind of handle takes.
pub(crate) fn rooms() -> CoreRooms
    ensures store { result.store ≡ bytes_of store_row }
    ensures caller { result.caller ≡ bytes_of caller_row }
    ensures merger { result.merger ≡ bytes_of merger_row }
{
    may_move::<StoreSlot>();
    may_move::<CallerSlot>();
    may_move::<MergerSlot>();
    CoreRooms {
        store: size_of::<StoreSlot>(),
        caller: size_of::<CallerSlot>(),
        merger: size_of::<MergerSlot>(),
    }
}

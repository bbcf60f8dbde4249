//! How a store opens for handles that keep it.
ghost use Rattle.std.specs.Prelude.{◌≡◌, ◌++◌, ◌∷◌, [], All, IfErr, IfNone, IfOk, IfSome, None, OnOk, map};
ghost use Rattle.std.specs.Arc.{arc_value};
ghost use Rattle.clsm_model.specs.Config.{IsSound};
ghost use Rattle.clsm_store.specs.Opening.{IsRefusal};
ghost use Rattle.clsm_c.specs.Opening.{AreHandles};

use crate::shared::{Shared, SharedCaller, SharedMerger};
use clsm_store::{Config, OpenError, Opened, Phase, Seat};
use std::alloc::{AllocError, Global};
use std::sync::Arc;

/// The handles of a store that nobody has taken yet.
#[derive(Drop)]
pub struct Handles {
    pub callers: Vec<SharedCaller>,
    pub merger: Option<SharedMerger>,
}

impl Handles {
    /// Takes the last caller that is left.
    pub fn take_caller(&mut self) -> Option<SharedCaller>
        ensures taken { IfSome result (λ caller. self.old.callers.items ≡ self.new.callers.items ++ caller ∷ []) }
        ensures none { IfNone result ((self.old.callers.items ≡ []) × (self.new.callers.items ≡ [])) }
        ensures merger { self.new.merger ≡ self.old.merger }
    {
        self.callers.pop()
    }

    /// Takes the merger, if it is left.
    pub fn take_merger(&mut self) -> Option<SharedMerger>
        ensures { (result ≡ self.old.merger) × (self.new.merger ≡ None) × (self.new.callers ≡ self.old.callers) }
    {
        self.merger.take()
    }
}

/// The callers that have these seats, in their order.
fn callers_of(
    alloc: Global,
    store: &Shared,
    seats: Vec<Seat>,
) -> Result<Vec<SharedCaller>, AllocError>
    requires { All (λ seat. seat.store ≡ arc_value store.now) seats.items }
    ensures { IfOk result (λ callers. map (λ caller. caller.seat) callers.items ≡ seats.items) }
{
    let mut callers = Vec::with_capacity(alloc, seats.len())?;
    for seat in seats {
        let own = Arc::try_clone(store)?;
        callers.push(SharedCaller {
            store: own,
            alloc,
            seat,
        })?;
    }
    Ok(callers)
}

/// Opens an empty store of these sizes, as `clsm_store::open`: a caller for each of its seats, in
/// their order, and the merger.
pub fn open(alloc: Global, config: Config) -> Result<Handles, OpenError>
    ensures sizes { OnOk result (IsSound config) }
    ensures handles { IfOk result (AreHandles config) }
    ensures refusal { IfErr result (IsRefusal config) }
{
    let Opened {
        store,
        seats,
        merger,
    } = clsm_store::open(alloc, config)?;
    let Ok(store) = Arc::new(alloc, store) else {
        return Err(OpenError::Memory);
    };
    let Ok(callers) = callers_of(alloc, &store, seats) else {
        return Err(OpenError::Memory);
    };
    let phase = Phase::Clean(merger);
    let merger = Some(SharedMerger { store, phase });
    Ok(Handles { callers, merger })
}

//! The callers and the merger of a store.
ghost use Rattle.std.specs.Prelude.{◌≡◌, All, IfOk, map};
ghost use Rattle.clsm_store.specs.declared.phase.Phase.TheVariants.{Clean as CleanPhase};

use crate::caller::Caller;
use crate::merger::{Clean, Merger};
use crate::seat::Seat;
use crate::store::Store;
use clsm_model::Memory;
use clsm_words::Pace;
use std::alloc::{AllocError, Global};

/// The callers of a store, in the order of their seats, and its merger. Each may be moved to
/// another thread.
#[derive(Drop)]
pub struct Bound<'a, P: Pace + Drop> {
    pub callers: Vec<Caller<'a, P>>,
    pub merger: Merger<'a, P>,
}

/// The callers that have these seats, in their order.
fn callers_of<'a, P: Pace>(
    alloc: Global,
    store: &'a Store<P>,
    seats: Vec<Seat>,
) -> Result<Vec<Caller<'a, P>>, AllocError>
    requires { All (λ seat. seat.store ≡ store.now) seats.items }
    ensures { IfOk result (λ callers. map (λ caller. caller.seat) callers.items ≡ seats.items) }
{
    let mut callers = Vec::with_capacity(alloc, seats.len())?;
    for seat in seats {
        callers.push(Caller::new(store, seat))?;
    }
    Ok(callers)
}

impl<P: Pace + Drop> Store<P> {
    /// A caller for each of these seats, in their order, and the merger with this token, all of
    /// this store. It takes memory for the list of the callers alone. Refused if memory runs out:
    /// the seats and the token are gone then, so nobody can call the store any more.
    pub fn bind(
        &self,
        alloc: Global,
        seats: Vec<Seat>,
        merger: Clean,
    ) -> Result<Bound<'_, P>, Memory>
        requires seats { All (λ seat. seat.store ≡ self.now) seats.items }
        requires merger { merger.merger.store ≡ self.now }
        ensures callers { IfOk result (λ bound. map (λ caller. caller.seat) bound.callers.items ≡ seats.items) }
        ensures merger { IfOk result (λ bound. bound.merger.phase ≡ CleanPhase merger) }
    {
        Ok(Bound {
            callers: callers_of(alloc, self, seats)?,
            merger: Merger::new(self, merger),
        })
    }
}

//! Work on a store that is opened for it.
ghost use Rattle.std.specs.Prelude.{◌≡◌, All};

use crate::calls::{Lap, Round, work_all};
use crate::failure::Failure;
use crate::merges::{Turns, take_turns};
use crate::series::{Scene, work_beside};
use clsm_store::{Caller, Config, Merger, Opened, Seat, Store, open};
use clsm_words::Free;
use std::alloc::{AllocError, Global};
use std::rt::Clock;
use std::sync::Wait;
use std::thread::Threads;

/// Work on a store.
#[derive(Clone, Copy)]
pub enum StoreJob<'a> {
    /// The writes of a round by the callers but the last one, with nothing beside them.
    Writes(&'a Round<'a>),
    /// The calls of a round, and what goes on beside them.
    Beside(&'a Scene<'a>),
    /// Turns of the merger.
    Turns(Turns),
}

impl StoreJob<'_> {
    /// Does the work at the store's callers, in the order of their seats, and its merger.
    fn run<R: Threads + Sync + Clock + Wait>(
        self,
        rt: &R,
        alloc: Global,
        mut callers: Vec<Caller<'_, Free>>,
        merger: Merger<'_, Free>,
    ) -> Result<Lap, Failure> {
        match self {
            StoreJob::Writes(round) => {
                let _ = callers.pop();
                work_all(rt, alloc, callers, round)
            }
            StoreJob::Beside(scene) => work_beside(rt, alloc, callers, merger, scene),
            StoreJob::Turns(turns) => take_turns(rt, alloc, callers, merger, turns),
        }
    }
}

/// The callers that have these seats.
fn callers<'a>(
    alloc: Global,
    store: &'a Store<Free>,
    seats: Vec<Seat>,
) -> Result<Vec<Caller<'a, Free>>, AllocError>
    requires { All (λ seat. seat.store ≡ store.now) seats.items }
{
    let mut callers = Vec::with_capacity(alloc, seats.len())?;
    for seat in seats {
        callers.push(Caller::new(store, seat))?;
    }
    Ok(callers)
}

/// Does the work on a store of these sizes, which is opened for it.
pub fn work_on<R: Threads + Sync + Clock + Wait>(
    rt: &R,
    alloc: Global,
    config: Config,
    job: StoreJob,
) -> Result<Lap, Failure> {
    let Ok(opened) = open(alloc, config) else {
        return Err(Failure::Refused);
    };
    let Opened {
        store,
        seats,
        merger,
    } = opened;
    let callers = callers(alloc, &store, seats)?;
    let merger = Merger::new(&store, merger);
    job.run(rt, alloc, callers, merger)
}

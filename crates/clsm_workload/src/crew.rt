//! The threads of a run: a worker for each seat of one store, the merger, and the line that moves.
ghost use Rattle.std.specs.Prelude.{◌≡◌, All, IfErr, IfOk};
ghost use Rattle.clsm_store_calls.specs.Seats.{AreNew, IsNewMerger};
ghost use Rattle.clsm_store.specs.Phase.{merger_in};
ghost use Rattle.clsm_store_audit.specs.Settled.{AreLawfulAlone};
ghost use Rattle.clsm_workload.specs.Calls.{AreWorked, HasMadeAll, IsAudited, IsWorked};
ghost use Rattle.clsm_workload.specs.Run.{StopsWork};

use crate::auditing::audited;
use crate::load::AskedRun;
use crate::merger::{Merged, merge_beside};
use crate::progress::work_showing;
use crate::ran::{Calling, Ran};
use crate::task::Task;
use crate::worker::{Worked, work};
use clsm_store::{Caller, Clean, Merger, Opened, Pace, Seat, Store};
use clsm_text::Failure;
use std::alloc::{AllocError, Global};
use std::io::Write;
use std::rt::Clock;
use std::sync::Wait;
use std::thread::{self, Threads, join};
use std::time::Instant;

/// Who works at a store: its seats, and its merger.
#[derive(Drop)]
pub struct Crew<'a, P: Pace + Drop> {
    pub store: &'a Store<P>,
    pub seats: Vec<Seat>,
    pub merger: Clean,
}

/// Lets each seat of an opened store, of the sizes that are asked for, make the calls of its
/// workload in a thread of its own, while one more thread merges, and audits all that they
/// answered. Refused with `Memory` where a worker was refused memory, and with `Device` where the
/// clock fails.
pub fn run_on<P, R, E>(
    rt: &R,
    alloc: Global,
    asked: &AskedRun,
    opened: Opened<P>,
    faults: &mut E,
) -> Result<Ran, Failure>
where
    P: Pace + Drop + Sync,
    R: Threads + Sync + Clock + Wait,
    E: Write + Send,
    requires seats { AreNew opened.store asked.now.config.seats opened.seats.items }
    requires merger { IsNewMerger opened.store opened.merger }
    ensures audited { IfOk result (λ ran.
        IsAudited asked.now.config opened.store (HasMadeAll asked.now.load) ran.seats.items ran.records.items ran.verdict) }
    ensures lawful { IfOk result (λ ran. AreLawfulAlone ran.seats.items) }
    ensures stopped { IfErr result StopsWork }
{
    let Opened {
        store,
        seats,
        merger,
    } = opened;
    let task = Task::new(asked.load, asked.shows);
    let crew = Crew {
        store: &store,
        seats,
        merger,
    };
    let start = Instant::now(rt)?;
    let (worked, merged) = work_merging(rt, alloc, crew, &task, faults);
    let calling = Calling {
        time: start.elapsed(rt)?,
        merged: Some(merged),
    };
    let worked = worked?;
    audited(rt, alloc, &asked.config, worked, calling)
}

/// Lets the workers work while the merger merges and the line moves. Answers what they gave back,
/// and what the merger tells. Refused if memory runs out.
pub fn work_merging<P, R, E>(
    rt: &R,
    alloc: Global,
    crew: Crew<'_, P>,
    task: &Task,
    faults: &mut E,
) -> (Result<Vec<Worked>, AllocError>, Merged)
where
    P: Pace + Drop + Sync,
    R: Threads + Sync + Clock + Wait,
    E: Write + Send,
    requires seats { All (λ seat. seat.store ≡ crew.store.now) crew.seats.items }
    requires merger { crew.merger.merger.store ≡ crew.store.now }
    ensures { IfOk result.0 (λ worked. AreWorked task.now.load crew.entry.seats.items worked.items) }
{
    work_showing(
        rt,
        task,
        faults,
        || -> (Result<Vec<Worked>, AllocError>, Merged)
            requires { (All (λ seat. seat.store ≡ crew.store.now) crew.seats.items) × (crew.merger.merger.store ≡ crew.store.now) }
            ensures { IfOk result.0 (λ worked. AreWorked task.entry.now.load crew.entry.seats.items worked.items) }
        { work_beside(rt, alloc, crew, task) },
    )
}

/// Lets the workers work while the merger merges.
fn work_beside<P, R>(
    rt: &R,
    alloc: Global,
    crew: Crew<'_, P>,
    task: &Task,
) -> (Result<Vec<Worked>, AllocError>, Merged)
where
    P: Pace + Drop + Sync,
    R: Threads + Sync + Clock + Wait,
    requires seats { All (λ seat. seat.store ≡ crew.store.now) crew.seats.items }
    requires merger { crew.merger.merger.store ≡ crew.store.now }
    ensures { IfOk result.0 (λ worked. AreWorked task.now.load crew.entry.seats.items worked.items) }
{
    let Crew {
        store,
        seats,
        merger,
    } = crew;
    let merger = Merger::new(store, merger);
    // Where no thread can be made, the first of the two comes last, and finds that all is over.
    let (merged, worked) = join(
        rt,
        || merge_beside(rt, merger, &task.board),
        || -> Result<Vec<Worked>, AllocError>
            requires { All (λ seat. seat.store ≡ store.now) seats.items }
            ensures { IfOk result (λ worked. AreWorked task.entry.now.load seats.items worked.items) }
        { work_all(rt, alloc, store, seats, task) },
    );
    (worked, merged)
}

/// Lets each seat's worker work in a thread of its own, and says on the board when all have ended.
fn work_all<P, R>(
    rt: &R,
    alloc: Global,
    store: &Store<P>,
    seats: Vec<Seat>,
    task: &Task,
) -> Result<Vec<Worked>, AllocError>
where
    P: Pace + Drop + Sync,
    R: Threads + Sync + Clock + Wait,
    requires { All (λ seat. seat.store ≡ store.now) seats.items }
    ensures { IfOk result (λ worked. AreWorked task.now.load seats.items worked.items) }
{
    let worked = thread::map_vec(
        rt,
        seats,
        &|seat: Seat| -> Worked
            requires { seat.store ≡ store.now }
            ensures { IsWorked task.entry.now.load seat result }
        { work_at(rt, alloc, store, seat, task) },
    );
    task.board.end();
    worked
}

/// Lets the seat's worker work.
fn work_at<P, R>(rt: &R, alloc: Global, store: &Store<P>, seat: Seat, task: &Task) -> Worked
where
    P: Pace + Drop + Sync,
    R: Clock + Wait,
    requires { seat.store ≡ store.now }
    ensures { IsWorked task.now.load seat result }
{
    let mut caller = Caller::new(store, seat);
    let made = work(rt, alloc, &mut caller, task);
    Worked {
        seat: caller.seat,
        made,
    }
}

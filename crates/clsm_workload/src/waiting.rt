//! A run whose writes wait for room: its workers are the callers of a session.
ghost use Rattle.std.specs.Prelude.{◌≡◌, IfErr, IfOk, OnOk, length, map};
ghost use Rattle.clsm_model.specs.declared.config.Config.{Config};
ghost use Rattle.clsm_model.specs.Config.{IsSound};
ghost use Rattle.clsm_session.specs.Ended.{StopsSession};
ghost use Rattle.clsm_store_audit.specs.Settled.{AreLawfulAlone};
ghost use Rattle.clsm_workload.specs.Calls.{HasSettled, IsAuditedWhole};
ghost use Rattle.clsm_workload.specs.Run.{EndsSession, IsEnded, StopsCalls, StopsWork};

use crate::auditing::audited;
use crate::job::{Loaded, Waiting};
use crate::load::AskedRun;
use crate::progress::work_showing;
use crate::ran::{Calling, Ran};
use crate::task::Task;
use crate::worker::{Made, Worked};
use clsm_model::Config;
use clsm_session::{Ended, SessionError, with_store};
use clsm_store::Seat;
use clsm_text::Failure;
use std::alloc::{AllocError, Global};
use std::io::Write;
use std::marker::{Brand, PhantomData};
use std::rt::Clock;
use std::sync::Wait;
use std::thread::Threads;
use std::time::Instant;

/// Lets a caller for each seat of a store of the sizes that are asked for make the calls of its
/// workload, in a session, and audits all that they answered. A write waits for room, and is
/// refused only where the merger can make none. Refused where the opening is, with `Memory` where
/// there is no thread for the merger or a worker was refused memory, and with `Device` where the
/// clock fails.
pub fn run_waiting<R, E>(
    rt: &R,
    alloc: Global,
    asked: &AskedRun,
    faults: &mut E,
) -> Result<Ran, Failure>
where
    R: Threads + Sync + Clock + Wait,
    E: Write + Send,
    ensures opened { OnOk result (IsSound asked.now.config) }
    ensures audited { IfOk result (λ ran. IsAuditedWhole asked.now.config (HasSettled asked.now.load) ran.seats.items ran.records.items ran.verdict) }
    ensures lawful { IfOk result (λ ran. AreLawfulAlone ran.seats.items) }
    ensures stopped { IfErr result (StopsCalls asked.now.config) }
{
    if let Err(error) = asked.config.check() {
        return Err(Failure::Refused(error));
    }
    let task = Task::new(asked.load, asked.shows);
    let start = Instant::now(rt)?;
    let ended = work_showing(
        rt,
        &task,
        faults,
        || -> Result<Ended<Made>, SessionError>
            ensures { EndsSession asked.entry.now.config task.load result }
        { work_waiting(rt, alloc, asked.config, &task) },
    );
    let calling = Calling {
        time: start.elapsed(rt)?,
        merged: None,
    };
    let ended = match ended {
        Ok(ended) => ended,
        Err(error) => return Err(failure_of(error)),
    };
    audit_ended(rt, alloc, asked, ended, calling)
}

/// Audits what the callers of a session made. Refused with `Memory`, and with `Device` where the
/// clock fails.
fn audit_ended<R: Clock>(
    rt: &R,
    alloc: Global,
    asked: &AskedRun,
    ended: Ended<Made>,
    calling: Calling,
) -> Result<Ran, Failure>
    requires { IsEnded asked.now.config asked.now.load ended }
    ensures audited { IfOk result (λ ran. IsAuditedWhole asked.now.config (HasSettled asked.now.load) ran.seats.items ran.records.items ran.verdict) }
    ensures lawful { IfOk result (λ ran. AreLawfulAlone ran.seats.items) }
    ensures stopped { IfErr result StopsWork }
{
    let Ended { seats, answers, .. } = ended;
    let worked = rejoin(alloc, seats, answers)?;
    audited(rt, alloc, &asked.config, worked, calling)
}

/// Why the run stops where its session hands nothing back.
fn failure_of(error: SessionError) -> Failure
    ensures { (config : Config) → StopsSession config error → StopsCalls config result }
{
    match error {
        SessionError::Open(error) => Failure::Refused(error),
        SessionError::NoThread | SessionError::Memory => Failure::Memory,
    }
}

/// Lets the callers work, and says on the board when all have ended.
fn work_waiting<R>(
    rt: &R,
    alloc: Global,
    config: Config,
    task: &Task,
) -> Result<Ended<Made>, SessionError>
where
    R: Threads + Sync + Clock + Wait,
    ensures { EndsSession config task.now.load result }
{
    let ended = work_by::<R, Brand>(rt, alloc, config, task);
    task.board.end();
    ended
}

/// Lets the callers work by this load.
fn work_by<R, L: Loaded + Sync>(
    rt: &R,
    alloc: Global,
    config: Config,
    task: &Task,
) -> Result<Ended<Made>, SessionError>
where
    R: Threads + Sync + Clock + Wait,
    requires { task.now.load ≡ L.load }
    ensures { EndsSession config L.load result }
{
    let work: Waiting<'_, R, L> = Waiting {
        rt,
        alloc,
        task,
        load: PhantomData,
    };
    with_store(rt, alloc, config, &work)
}

/// Each seat with what was made by it. Refused if memory runs out.
fn rejoin(alloc: Global, seats: Vec<Seat>, made: Vec<Made>) -> Result<Vec<Worked>, AllocError>
    requires { length made.items ≡ length seats.items }
    ensures seats { IfOk result (λ worked. map (λ w. w.seat) worked.items ≡ seats.items) }
    ensures made { IfOk result (λ worked. map (λ w. w.made) worked.items ≡ made.items) }
{
    let mut made = made.into_iter();
    let mut worked = Vec::new(alloc);
    for seat in seats {
        let Some(made) = made.next() else {
            unreachable!();
        };
        worked.push(Worked { seat, made })?;
    }
    Ok(worked)
}

//! A run: its opening, its work and its end.
ghost use Rattle.std.specs.Prelude.{◌≡◌, IfErr, IfOk, OnOk};
ghost use Rattle.clsm_model.specs.Config.{IsSound};
ghost use Rattle.clsm_workload.specs.Printed.{PrintsRun};
ghost use Rattle.clsm_workload.specs.Run.{EndsWell, FindsFault, IsRunOf, IsStatus, StopsCalls, StopsRun, StopsWork};

use crate::answer::{write_clocked, write_records, write_verdict};
use crate::auditing::ending;
use crate::crew::run_on;
use crate::load::AskedRun;
use crate::ran::Ran;
use crate::stats::write_stats;
use crate::waiting::run_waiting;
use clsm_store::open;
use clsm_text::Failure;
use std::alloc::Global;
use std::io::Write;
use std::rt::Clock;
use std::sync::Wait;
use std::thread::Threads;

/// Opens a store of these sizes, lets a worker for each seat make the calls of its workload while
/// the merger merges, and audits the records of all answered calls. A write with no room is
/// refused, or waits where that is asked for. Answers the seats of the store, the records of all
/// their calls, and what the audit says of these. Refused with `Refused` where a size is out of its
/// range, with `Memory` where there is no memory or no thread for the merger, and with `Device`
/// where the clock fails. On the faults it shows only how far it has come, if that is asked for.
#[tactic(auto, using(crate::proofs::Verdicts::of_session))]
pub fn run<R, E>(rt: &R, alloc: Global, asked: &AskedRun, faults: &mut E) -> Result<Ran, Failure>
where
    R: Threads + Sync + Clock + Wait,
    E: Write + Send,
    ensures opened { OnOk result (IsSound asked.now.config) }
    ensures run { IfOk result (IsRunOf asked.now) }
    ensures stopped { IfErr result (StopsCalls asked.now.config) }
{
    if asked.waits {
        return run_waiting(rt, alloc, asked, faults);
    }
    let opened = open(alloc, asked.config)?;
    run_on(rt, alloc, asked, opened, faults)
}

/// Makes a run, and prints how many calls were made, refused ones too, and `audit ok` or
/// `audit fault KIND INDEX`; or, where it shows records, each of them as a line instead, with the
/// moments of its call if it shows these. Answers the exit status: 0, or 2 where the audit found a
/// fault, or 1 where a write to the output failed, or 3 where the sizes or memory were refused;
/// `device`, `refused N SIZE` or `no memory` then stands on the faults. A write to the faults that
/// fails changes nothing.
pub fn run_printed<R, W, E>(
    rt: &R,
    alloc: Global,
    asked: &AskedRun,
    output: &mut W,
    mut faults: E,
) -> u8
where
    R: Threads + Sync + Clock + Wait,
    W: Write,
    E: Write + Send + Drop,
    ensures status { IsStatus result }
    ensures refused { ¬ IsSound asked.now.config → result ≡ 3 }
    ensures well { result ≡ 0 → EndsWell asked.now (W.contents output.old) (W.contents output.new) }
    ensures fault { result ≡ 2 → FindsFault asked.now (W.contents output.old) (W.contents output.new) }
{
    match try_run(rt, alloc, asked, output, &mut faults) {
        Ok(()) => 0,
        Err(failure) => {
            let _ = failure.report(&mut faults);
            failure.status()
        }
    }
}

#[tactic(auto, using(crate::proofs::Verdicts::calls_stop, crate::proofs::Verdicts::work_stops))]
fn try_run<R, W, E>(
    rt: &R,
    alloc: Global,
    asked: &AskedRun,
    output: &mut W,
    faults: &mut E,
) -> Result<(), Failure>
where
    R: Threads + Sync + Clock + Wait,
    W: Write,
    E: Write + Send,
    ensures opened { OnOk result (IsSound asked.now.config) }
    ensures well { OnOk result (EndsWell asked.now (W.contents output.old) (W.contents output.new)) }
    ensures stopped { IfErr result (StopsRun asked.now (W.contents output.old) (W.contents output.new)) }
{
    let ran = run(rt, alloc, asked, faults)?;
    print_run(alloc, asked, &ran, output)?;
    if asked.shows.stats {
        let _ = write_stats(alloc, faults, &asked.config, &ran);
    }
    ending(&ran.verdict)
}

/// Prints the records of a run, or its verdict.
fn print_run<W: Write>(
    alloc: Global,
    asked: &AskedRun,
    ran: &Ran,
    output: &mut W,
) -> Result<(), Failure>
    requires { IsSound asked.now.config }
    ensures prints { OnOk result (PrintsRun asked.now ran.now (W.contents output.old) (W.contents output.new)) }
    ensures failed { IfErr result StopsWork }
{
    if asked.shows.records && asked.shows.clock {
        return write_clocked(alloc, output, &ran.records, &ran.notes);
    }
    if asked.shows.records {
        return write_records(alloc, output, &ran.records);
    }
    let calls = asked.config.seats as u64 * u64::from(asked.load.ops);
    write_verdict(output, calls, ran)?;
    Ok(())
}

//! The audit of a run.
ghost use Rattle.std.specs.Prelude.{◌≡◌, All, IfErr, IfOk, IsOk, OnOk, Ok, Err};
ghost use Rattle.clsm_store_audit.specs.Settled.{AreLawfulAlone};
ghost use Rattle.clsm_workload.specs.Calls.{IsVerdict};
ghost use Rattle.clsm_workload.specs.Run.{IsAuditOf, StopsWork, ending_of};

use crate::gathering::{Gathered, gather};
use crate::ran::{Calling, Ran};
use crate::worker::Worked;
use clsm_audit::{AuditError, audit};
use clsm_model::{CallRecord, Config};
use clsm_store_audit::are_lawful_alone;
use clsm_text::Failure;
use std::alloc::Global;
use std::rt::Clock;
use std::time::Instant;

/// Gathers what the workers made, and audits it. Refused with `Memory` where one of them was
/// refused memory, and with `Device` where the clock fails.
pub fn audited<R: Clock>(
    rt: &R,
    alloc: Global,
    config: &Config,
    worked: Vec<Worked>,
    calling: Calling,
) -> Result<Ran, Failure>
    ensures audit { IfOk result (IsAuditOf config.now worked.items) }
    ensures lawful { IfOk result (λ ran. AreLawfulAlone ran.seats.items) }
    ensures stopped { IfErr result StopsWork }
{
    let Ok(gathered) = gather(alloc, worked) else {
        return Err(Failure::Memory);
    };
    let Gathered {
        seats,
        records,
        notes,
    } = gathered;
    are_lawful_alone(&seats);
    let start = Instant::now(rt)?;
    let verdict = verdict_of(alloc, config, &records);
    let auditing = start.elapsed(rt)?;
    Ok(Ran {
        seats,
        records,
        verdict,
        notes,
        calling,
        auditing,
    })
}

/// What the audit says of the records.
pub fn verdict_of(alloc: Global, config: &Config, records: &[CallRecord]) -> Result<(), AuditError>
    ensures { IsVerdict config.now records.now result }
{
    audit(alloc, config, records)
}

/// How a run with this verdict ends: well only where the audit found no fault.
pub fn ending(verdict: &Result<(), AuditError>) -> Result<(), Failure>
    ensures { result ≡ ending_of verdict.now }
{
    match verdict {
        Ok(()) => Ok(()),
        Err(AuditError::Fault { .. }) => Err(Failure::Fault),
        Err(AuditError::Memory) => Err(Failure::Memory),
    }
}

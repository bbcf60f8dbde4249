//! The history of lawful records, written as lines.
ghost use Rattle.std.specs.Prelude.{IfErr, OnOk};
ghost use Rattle.clsm_text.specs.Audit.{Grows};
ghost use Rattle.clsm_text.specs.Failure.{IsOutside};

use crate::failure::Failure;
use crate::written::Line;
use clsm_audit::{Stamp, in_time_order};
use clsm_model::CallRecord;
use std::alloc::Global;
use std::io::Write;

/// Writes the records of writes by their times, a line each. They are records as lines themselves.
#[tactic(auto, using(crate::proofs::Verdicts::grows_start, crate::proofs::Verdicts::grows_on))]
pub fn write_history<W: Write>(
    alloc: Global,
    output: &mut W,
    records: &[CallRecord],
) -> Result<(), Failure>
    ensures failed { IfErr result IsOutside }
    ensures grows { OnOk result (Grows (W.contents output.old) (W.contents output.new)) }
{
    let Ok(stamps) = in_time_order(alloc, records) else {
        return Err(Failure::Memory);
    };
    for stamp in &stamps {
        write_stamped(output, records, stamp)?;
    }
    Ok(())
}

/// Writes the record of this stamp as a line, if it is a write.
#[tactic(auto, using(crate::proofs::Verdicts::grows_start, crate::proofs::Verdicts::grows_by))]
fn write_stamped<W: Write>(
    output: &mut W,
    records: &[CallRecord],
    stamp: &Stamp,
) -> Result<(), Failure>
    ensures failed { IfErr result IsOutside }
    ensures grows { OnOk result (Grows (W.contents output.old) (W.contents output.new)) }
{
    if !stamp.is_write {
        return Ok(());
    }
    let Some(record) = records.get(stamp.index) else {
        return Ok(());
    };
    let line = Line(record);
    writeln!(output, "{line}")?;
    Ok(())
}

//! `clsm audit`: the records of an input are audited, and the verdict is printed.
ghost use Rattle.std.specs.Prelude.{◌≡◌, IfSome, IfOk, IfErr, OnOk};
ghost use Rattle.clsm_text.specs.Failure.{IsOutside};
ghost use Rattle.clsm_text.specs.Audit.{AreLawful, IsStatus, IsVerdict, PrintsFault, PrintsVerdict, StopsAudit};
ghost use Rattle.clsm_text.specs.declared.verdict.Verdict.TheVariants.{Lawful};

use crate::failure::Failure;
use crate::history::write_history;
use crate::judging::judge;
use crate::listing::list_records;
use crate::reason::write_judged;
use crate::verdict::Verdict;
use clsm_model::{CallRecord, Config};
use std::alloc::Global;
use std::io::{self, ErrorKind, Read, Write};

/// What an audit is asked for: the sizes of the store that the records are of, whether the order of
/// their calls in real time is audited too, and whether the history of lawful records is to be
/// written.
#[derive(Clone, Copy, Debug, PartialEq, Eq)]
pub struct AskedAudit {
    pub config: Config,
    pub order: bool,
    pub history: bool,
}

/// Audits the records that the lines of an input say, as `clsm_audit::audit` does, and prints the
/// verdict on the output: `audit ok`, with status 0, or `audit fault KIND LINE`, with status 2,
/// where `LINE` is the line, counted from 1, of the record that has the fault. After a fault, lines
/// on the faults say why it is one: what an explanation of `clsm_audit` says. Behind a record
/// ` | BEGIN END` may stand, the moments of its call. Where the order is asked for, it stands
/// behind each record, else the line is bad; and where `audit` finds no fault, `audit_order` looks
/// for a call that is too early, of the kind `Stale`. Where a history is asked for, the records of
/// writes follow `audit ok`, by their times. Where there is no verdict, a line on the faults says
/// why: `bad line L`, or `device` for a failed read or write, with status 1, or `no memory`, with
/// status 3. A write to the faults that fails changes no status. Of the sizes the audit uses the
/// seats and the cells: a record of another seat, or a batch of more members than cells, is
/// `Unknown`. All records are kept, so memory limits how many there may be, and how long a line is.
pub fn audit_lines<R, W, E>(
    alloc: Global,
    asked: AskedAudit,
    input: R,
    output: &mut W,
    mut faults: E,
) -> u8
where
    R: Read + Drop,
    W: Write,
    E: Write + Drop,
    ensures status { IsStatus result }
    ensures lawful { result ≡ 0 → IfSome (R.remaining input) (AreLawful asked.config asked.order) }
    ensures prints { result ≡ 0 →
        PrintsVerdict asked.history (W.contents output.old) (W.contents output.new) Lawful }
    ensures fault { result ≡ 2 → IfSome (R.remaining input)
        (PrintsFault asked.config asked.order (W.contents output.old) (W.contents output.new)) }
{
    match print_verdict(alloc, &asked, input, output, &mut faults) {
        Ok(verdict) => verdict.status(),
        Err(failure) => {
            let _ = report(&mut faults, failure, asked.order);
            failure.status()
        }
    }
}

/// Audits an input, and prints the verdict, and on the faults why a fault is one.
#[tactic(auto, using(crate::proofs::Verdicts::prints_kept))]
fn print_verdict<R: Read + Drop, W: Write, E: Write>(
    alloc: Global,
    asked: &AskedAudit,
    mut input: R,
    output: &mut W,
    faults: &mut E,
) -> Result<Verdict, Failure>
    ensures verdict { IfOk result (λ verdict. IfSome (R.remaining input)
        (λ bytes. IsVerdict asked.now.config asked.now.order bytes verdict)) }
    ensures prints { IfOk result
        (PrintsVerdict asked.now.history (W.contents output.old) (W.contents output.new)) }
    ensures stopped { IfErr result (StopsAudit asked.now.order (R.remaining input)) }
{
    let text = read_input(alloc, &mut input)?;
    let list = list_records(alloc, &text, asked.order)?;
    let judged = judge(alloc, &asked.config, &list, asked.order)?;
    let verdict = judged.verdict;
    write_verdict(alloc, output, verdict, asked.history, &list.listed.records)?;
    output.flush()?;
    let _ = write_judged(faults, &list, &judged);
    Ok(verdict)
}

/// Writes the verdict as a line, and behind `audit ok` the history of the records if it is asked
/// for.
#[tactic(auto, using(crate::proofs::Verdicts::prints_plain, crate::proofs::Verdicts::prints_history))]
fn write_verdict<W: Write>(
    alloc: Global,
    output: &mut W,
    verdict: Verdict,
    history: bool,
    records: &[CallRecord],
) -> Result<(), Failure>
    ensures prints { OnOk result (PrintsVerdict history (W.contents output.old) (W.contents output.new) verdict) }
    ensures failed { IfErr result IsOutside }
{
    writeln!(output, "{verdict}")?;
    match verdict {
        Verdict::Lawful if history => {
            write_history(alloc, output, records)?;
            Ok(())
        }
        _ => Ok(()),
    }
}

/// All bytes of an input.
fn read_input<R: Read>(alloc: Global, input: &mut R) -> Result<Vec<u8>, Failure>
    ensures read { IfOk result (λ text. IfSome (R.remaining input.old)
        (λ bytes. text.items ≡ bytes)) }
    ensures failed { IfErr result IsOutside }
{
    let mut text = Vec::new(alloc);
    match input.read_to_end(&mut text) {
        Ok(_) => Ok(text),
        Err(error) if error.kind() == ErrorKind::OutOfMemory => Err(Failure::Memory),
        Err(_) => Err(Failure::Device),
    }
}

/// Writes why there is no verdict, and of a bad line which lines are good where the order is asked
/// for.
fn report<E: Write>(faults: &mut E, failure: Failure, order: bool) -> io::Result<()> {
    failure.report(faults)?;
    if order && matches!(failure, Failure::BadLine(_)) {
        writeln!(faults, "with --order each record ends in ` | BEGIN END`")?;
        faults.flush()?;
    }
    Ok(())
}

//! The audit of the records that lines say.
ghost use Rattle.std.specs.Prelude.{◌≡◌, ℕ, List, true, vec_len, IfErr, IfOk};
ghost use Rattle.clsm_audit.specs.Faults.{IsLawful};
ghost use Rattle.clsm_text.specs.Audit.{IsListOf, IsVerdict};
ghost use Rattle.clsm_text.specs.Line.{lines_of};
ghost use Rattle.clsm_text.specs.declared.failure.Failure.TheVariants.{Memory};
ghost use Rattle.clsm_text.specs.declared.verdict.Verdict.TheVariants.{Lawful};

use crate::failure::Failure;
use crate::listing::TimedList;
use crate::verdict::Verdict;
use clsm_audit::{AuditError, Explanation, OrderError, audit, audit_order, explain};
use clsm_model::Config;
use std::alloc::Global;

/// A verdict, and at a fault why it is one.
#[derive(Drop)]
pub struct Judged {
    pub verdict: Verdict,
    /// The index of the record with the fault.
    pub index: usize,
    /// Why it has the fault, if there was memory to find out.
    pub explanation: Option<Explanation>,
    /// Where its call is too early, the index of one that had ended before, with a later place.
    pub earlier: Option<usize>,
}

impl Judged {
    /// Nothing is wrong.
    fn lawful() -> Judged
        ensures { result.verdict ≡ Lawful }
    {
        Judged {
            verdict: Verdict::Lawful,
            index: 0,
            explanation: None,
            earlier: None,
        }
    }
}

/// The verdict of the audit of these records, and of their order in real time if that is asked for.
pub fn judge(
    alloc: Global,
    config: &Config,
    list: &TimedList,
    order: bool,
) -> Result<Judged, Failure>
    requires count { vec_len list.now.listed.lines ≡ vec_len list.now.listed.records }
    requires timed { order ≡ true → vec_len list.now.moments ≡ vec_len list.now.listed.records }
    ensures verdict { IfOk result (λ judged. (bytes : List ℕ) →
        IsListOf order (lines_of bytes) list.now.listed.records.items list.now.listed.lines.items list.now.moments.items →
        IsVerdict config.now order bytes judged.verdict) }
    ensures memory { IfErr result (λ failure. failure ≡ Memory) }
{
    let records = list.listed.records.as_slice();
    match audit(alloc, config, records) {
        Ok(()) if order => judge_order(alloc, config, list),
        Ok(()) => Ok(Judged::lawful()),
        Err(AuditError::Fault { kind, index }) => {
            let line = list.listed.lines[index];
            let explanation = explain(alloc, config, records, kind, index).ok();
            Ok(Judged {
                verdict: Verdict::Fault { kind, line },
                index,
                explanation,
                earlier: None,
            })
        }
        Err(AuditError::Memory) => Err(Failure::Memory),
    }
}

/// The verdict of the audit of the order in real time of lawful records.
fn judge_order(alloc: Global, config: &Config, list: &TimedList) -> Result<Judged, Failure>
    requires lawful { IsLawful config.now list.now.listed.records.items }
    requires count { vec_len list.now.listed.lines ≡ vec_len list.now.listed.records }
    requires timed { vec_len list.now.moments ≡ vec_len list.now.listed.records }
    ensures verdict { IfOk result (λ judged. (bytes : List ℕ) →
        IsListOf true (lines_of bytes) list.now.listed.records.items list.now.listed.lines.items list.now.moments.items →
        IsVerdict config.now true bytes judged.verdict) }
    ensures memory { IfErr result (λ failure. failure ≡ Memory) }
{
    match audit_order(alloc, config, &list.listed.records, &list.moments) {
        Ok(()) => Ok(Judged::lawful()),
        Err(OrderError::Stale { index, earlier }) => {
            let line = list.listed.lines[index];
            Ok(Judged {
                verdict: Verdict::Stale { line },
                index,
                explanation: None,
                earlier: Some(earlier),
            })
        }
        Err(OrderError::Memory) => Err(Failure::Memory),
    }
}

//! What C expects becomes conditions.
ghost use Rattle.std.specs.Prelude.{◌≡◌, ◌<◌, [], List, IfErr, IfNone, IfOk, IfSome, OnOk};
ghost use Rattle.clsm_c.specs.declared.types.CoreRow.{CoreRow as Row};
ghost use Rattle.clsm_c.specs.Calls.{HasLong};
ghost use Rattle.clsm_c.specs.Conditional.{AreConditions, IsExpected};

use crate::calls::NoMembers;
use crate::types::{CoreRangeCount, CoreRow, value_or_none};
use clsm_store::Condition;
use std::alloc::{AllocError, Global};

/// The condition that the row is: its key has its value, or none.
fn to_condition(row: &CoreRow) -> Option<Condition>
    ensures condition { IfSome result (IsExpected row.now) }
    ensures none { IfNone result (8 < row.now.value.length) }
{
    match value_or_none(&row.value) {
        Ok(expected) => Some(Condition::Has(row.key, expected)),
        Err(_) => None,
    }
}

/// The conditions that the rows are.
fn expect_rows(alloc: Global, rows: &[CoreRow]) -> Result<Vec<Condition>, NoMembers>
    ensures conditions { IfOk result (λ conditions. AreConditions rows.now [] conditions.items) }
    ensures long { IfErr result (λ error. error ≡ NoMembers.TooLong → HasLong rows.now) }
{
    let mut conditions = Vec::new(alloc);
    for row in rows {
        let Some(condition) = to_condition(row) else {
            return Err(NoMembers::TooLong);
        };
        if conditions.extend_from_slice(&[condition]).is_err() {
            return Err(NoMembers::Memory);
        }
    }
    Ok(conditions)
}

/// Adds the conditions that the counts are.
fn expect_counts(
    conditions: &mut Vec<Condition>,
    counts: &[CoreRangeCount],
) -> Result<(), AllocError>
    ensures { OnOk result ((rows : List Row) → AreConditions rows [] conditions.old.items → AreConditions rows counts.now conditions.new.items) }
{
    for count in counts {
        let condition = Condition::Counts {
            lo: count.first,
            hi: count.last,
            keys: count.keys,
        };
        conditions.extend_from_slice(&[condition])?;
    }
    Ok(())
}

/// The conditions that the rows are, and behind them those that the counts are.
pub(crate) fn to_conditions(
    alloc: Global,
    rows: &[CoreRow],
    counts: &[CoreRangeCount],
) -> Result<Vec<Condition>, NoMembers>
    ensures conditions { IfOk result (λ conditions. AreConditions rows.now counts.now conditions.items) }
    ensures long { IfErr result (λ error. error ≡ NoMembers.TooLong → HasLong rows.now) }
{
    let mut conditions = expect_rows(alloc, rows)?;
    match expect_counts(&mut conditions, counts) {
        Ok(()) => Ok(conditions),
        Err(_) => Err(NoMembers::Memory),
    }
}

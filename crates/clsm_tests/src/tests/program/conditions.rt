//! Batches with conditions beside one another and beside a put, in every order of their steps. At
//! each end the audit finds one history, in which the conditions of a batch are reads at its own
//! time.
use super::counts::{Counts, counts, explored_lists};
use clsm_explore::{AnyDeal, Condition, Deal, Explored};
use clsm_model::{CallRecord, Change, Deed, Key, Value};
use std::alloc::{AllocError, Global};
use std::process::Abort;
use std::test::Fail;

fn value(rt: &impl Abort, word: u64) -> Value {
    Value::new(&[word]).expect(rt, "one word")
}

/// A batch that writes the key, if the conditions hold.
fn write_if(
    rt: &impl Abort,
    alloc: Global,
    conditions: &[Condition],
    key: Key,
) -> Result<AnyDeal, AllocError> {
    let mut asked = Vec::new(alloc);
    asked.extend_from_slice(conditions)?;
    Ok(AnyDeal::BatchIf {
        conditions: asked,
        members: vec![in alloc; (key, Change::Set(value(rt, 10)))]?,
    })
}

/// Neither of the keys 1 and 2 has a value.
const NEITHER: [Condition; 2] = [Condition::Has(1, None), Condition::Has(2, None)];

/// No key up to 9 has a value.
const NO_ROW: [Condition; 1] = [Condition::Counts {
    lo: 0,
    hi: 9,
    keys: 0,
}];

/// Two batches that both ask for these conditions; the one writes the key 1, the other the key 2.
fn two_batches(
    rt: &impl Abort,
    alloc: Global,
    conditions: &[Condition],
) -> Result<Vec<Vec<AnyDeal>>, AllocError> {
    let one = write_if(rt, alloc, conditions, 1)?;
    let other = write_if(rt, alloc, conditions, 2)?;
    Ok(vec![in alloc; vec![in alloc; one]?, vec![in alloc; other]?]?)
}

/// A batch that writes the key 2 if the conditions hold, beside a put of the key 1.
fn beside_a_put(
    rt: &impl Abort,
    alloc: Global,
    conditions: &[Condition],
) -> Result<Vec<Vec<AnyDeal>>, AllocError> {
    let batch = write_if(rt, alloc, conditions, 2)?;
    let put = AnyDeal::Plain(Deal::Put {
        key: 1,
        value: value(rt, 5),
    });
    Ok(vec![in alloc; vec![in alloc; batch]?, vec![in alloc; put]?]?)
}

/// How many of the records are those of batches.
fn batches_of(records: &[CallRecord]) -> usize {
    records
        .iter()
        .filter(|record| matches!(record.deed, Deed::Batch { .. }))
        .count()
}

/// How many of the reads of single keys found a value.
fn values_of(records: &[CallRecord]) -> usize {
    records
        .iter()
        .filter(|record| matches!(record.deed, Deed::Get { reply: Some(_), .. }))
        .count()
}

/// Whether at each end just one of two batches was written, and the other found its write.
fn is_one_written(found: &Explored) -> bool {
    found.answers.iter().all(|ending| {
        batches_of(ending.told.as_slice()) == 1 && values_of(ending.told.as_slice()) == 1
    })
}

/// Explores the lists, and finds these counts.
fn check<R: Abort + AllocGlobal>(
    rt: &R,
    lists: &[Vec<AnyDeal>],
    wanted: Counts,
) -> Result<Explored, Fail> {
    let found = explored_lists(rt, rt.alloc(), lists, false)?;
    assert_eq!(rt; counts(&found), wanted);
    Ok(found)
}

/// Two batches each read two keys and write one of them. In no order both are written.
#[test]
fn no_write_skew(rt: HostRuntime) -> Result<(), Fail> {
    let lists = two_batches(&rt, rt.alloc(), &NEITHER)?;
    let found = check(&rt, &lists, [81, 2, 2])?;
    assert!(rt; is_one_written(&found));
    Ok(())
}

/// The same of two batches that count the rows of a range.
#[test]
fn no_row_comes_between(rt: HostRuntime) -> Result<(), Fail> {
    let lists = two_batches(&rt, rt.alloc(), &NO_ROW)?;
    check(&rt, &lists, [75, 2, 2])?;
    Ok(())
}

/// A batch is written before a put of the key that it reads, or finds what the put wrote.
#[test]
fn condition_beside_a_put(rt: HostRuntime) -> Result<(), Fail> {
    let lists = beside_a_put(&rt, rt.alloc(), &NEITHER)?;
    check(&rt, &lists, [94, 2, 2])?;
    Ok(())
}

//! Tests of the model, of runs and their merges, and of the audit, which need no store. At most one
//! allocation of a run is made to fail: the tables are then gone through once more.
use clsm_model::Value;
use std::alloc::Global;

mod audit;
mod levels;
mod map;

/// Why a table is not as it is written: memory ran out, or the row of this number of a table.
#[derive(Clone, Copy, PartialEq, Eq, Debug)]
enum Wrong {
    Memory,
    Values(usize),
    Refusals(usize),
    Played(usize),
    Keys(usize),
    Ranges(usize),
    Places(usize),
    Merges(usize),
    Slots(usize),
    Least(usize),
    Judged(usize),
    Faults(usize),
    DrawnLists(usize),
    DrawnOrders(usize),
    /// The drawn lists do not vary enough.
    Counts,
}

/// Refuses the row where the two are not the same.
fn same(is_same: bool, row: Wrong) -> Result<(), Wrong> {
    if is_same { Ok(()) } else { Err(row) }
}

fn value_of(word: u64) -> Value {
    Value::new(&[word]).unwrap()
}

fn optional_value(word: Option<u64>) -> Option<Value> {
    match word {
        Some(word) => Some(value_of(word)),
        None => None,
    }
}

fn tables(alloc: Global) -> Result<(), Wrong> {
    map::values(alloc)?;
    map::names(alloc)?;
    map::plays(alloc)?;
    map::many_keys(alloc)?;
    map::ranges(alloc)?;
    levels::table_of_places(alloc)?;
    levels::merges(alloc)?;
    levels::entries_of_slots(alloc)?;
    levels::least_of_cursors()?;
    levels::judge_by_the_floor()?;
    audit::names(alloc)?;
    audit::drawn_lists(alloc)?;
    audit::drawn_orders(alloc)
}

#[test]
fn tables_are_as_written(rt: HostRuntime) {
    let mut answer = tables(rt.alloc());
    if answer == Err(Wrong::Memory) {
        answer = tables(rt.alloc());
    }
    assert_eq!(rt; answer, Ok(()));
}

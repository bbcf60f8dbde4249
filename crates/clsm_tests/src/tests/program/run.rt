//! Runs of several workers beside a merger: what differs from one to the next, their records, and
//! their workloads.
use super::device::Screen;
use clsm_audit::{AuditError, FaultKind, audit};
use clsm_model::{CallRecord, Change, Config, Deal, Deed, Value};
use clsm_workload::{AskedRun, Load, Ran, Shows, Turn, Workload, run_on};
use std::alloc::Global;
use std::process::Abort;
use std::rt::Clock;
use std::sync::Wait;
use std::test::Fail;
use std::thread::Threads;

mod overlap;
mod settling;
mod several;

const TWO_SEATS: Config = Config {
    cells: 1_024,
    seats: 2,
    shards: 64,
    run: 65_536,
    patience: 16,
};

const FOUR_SEATS: Config = Config {
    seats: 4,
    ..TWO_SEATS
};

const PLAIN: Shows = Shows {
    stats: false,
    progress: false,
    records: false,
    clock: false,
};

/// Calls of 64 keys, drawn by 7.
const LOAD: Load = Load {
    ops: 1_000,
    keys: 64,
    seed: 7,
    batch: false,
    many: false,
    swap: false,
};

/// A workload beside one that was drawn by hand, with the reference generator of PCG.
#[test]
fn the_calls_are_those_drawn_by_hand(rt: HostRuntime) -> Result<(), Fail> {
    let three = [3_392_709_922, 3_392_709_923, 3_392_709_924];
    let four = [2_127_995_579, 2_127_995_580, 2_127_995_581, 2_127_995_582];
    let calls = [
        Deal::Remove { key: 28 },
        Deal::Get { key: 24 },
        Deal::Get { key: 24 },
        Deal::Scan { lo: 0, hi: 63 },
        Deal::Snap,
        Deal::Scan { lo: 40, hi: 55 },
        Deal::Put {
            key: 43,
            value: Value::new(&three).expect(&rt, "three words"),
        },
        Deal::Add { key: 54, by: 1 },
        Deal::GetAt { key: 23 },
        Deal::Scan { lo: 31, hi: 46 },
        Deal::Claim {
            key: 15,
            value: Value::new(&four).expect(&rt, "four words"),
        },
        Deal::Close,
        Deal::Add { key: 42, by: 1 },
    ];
    let load = Load {
        ops: 1_000,
        keys: 64,
        seed: 14_301,
        batch: false,
        many: false,
        swap: false,
    };
    let mut workload = Workload::new(&load, 1);
    let mut has_snapshot = false;
    for call in calls {
        let had_snapshot = has_snapshot;
        match &call {
            Deal::Snap => has_snapshot = true,
            Deal::Close => has_snapshot = false,
            _ => (),
        }
        assert_eq!(rt; workload.next(had_snapshot), Turn::Call(call));
    }
    Ok(())
}

/// Batches that were drawn by hand in the same way, the first one at the last key.
#[test]
fn the_batches_are_those_drawn_by_hand(rt: HostRuntime) {
    let first = Value::new(&[1_038_557_569, 1_038_557_570]).expect(&rt, "two words");
    let second = Value::new(&[1_588_407_264]).expect(&rt, "a word");
    let load = Load {
        ops: 1_000,
        keys: 64,
        seed: 254_571,
        batch: true,
        many: false,
        swap: false,
    };
    let mut workload = Workload::new(&load, 1);
    for (key, next, value) in [(63, 0, first), (19, 20, second)] {
        let members = [(key, Change::Set(value)), (next, Change::Set(value))];
        assert_eq!(rt; workload.next(false), Turn::Call(Deal::Batch { members }));
    }
}

/// A read of several keys and an exchange, drawn by hand in the same way. The keys behind the last
/// are the first.
#[test]
fn the_turns_of_several_keys_are_those_drawn_by_hand(rt: HostRuntime) {
    let load = Load {
        ops: 1_000,
        keys: 64,
        seed: 181,
        batch: false,
        many: true,
        swap: true,
    };
    let mut workload = Workload::new(&load, 1);
    let many = Turn::Many {
        keys: [62, 63, 0, 1],
    };
    assert_eq!(rt; workload.next(false), many);
    let swap = Turn::Swap { one: 17, other: 49 };
    assert_eq!(rt; workload.next(false), swap);
}

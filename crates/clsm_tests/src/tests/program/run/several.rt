//! Calls of several keys among those of a run: what is recorded of them.
use super::*;
use clsm_store::open;

/// What two workers recorded of so many turns, each of few keys, so that they meet.
fn ran<R: Abort + Threads + Sync + Clock + Wait>(rt: &R, alloc: Global, load: Load) -> Ran {
    let config = TWO_SEATS;
    let opened = open(alloc, config).expect(rt, "memory");
    let asked = AskedRun {
        config,
        waits: false,
        load,
        shows: Shows {
            stats: true,
            ..PLAIN
        },
    };
    let mut faults = Screen::sound(alloc);
    run_on(rt, alloc, &asked, opened, &mut faults).expect(rt, "memory and a clock")
}

/// Whether the first of these records, so many, are gets at one time.
fn are_gets_at_one_time(records: &[CallRecord], count: usize) -> bool {
    let Some(first) = records.first() else {
        return false;
    };
    for record in records.iter().take(count) {
        if record.time != first.time || !matches!(&record.deed, Deed::Get { .. }) {
            return false;
        }
    }
    true
}

/// Each turn's records stand behind one another, as many as its note says: a read of four keys is
/// four gets at one time.
#[test]
fn a_read_of_several_keys_is_recorded_as_gets_at_one_time(rt: HostRuntime) -> Result<(), Fail> {
    let load = Load {
        ops: 1_000,
        keys: 3,
        seed: 7,
        batch: false,
        many: true,
        swap: false,
    };
    let Ran {
        records,
        verdict,
        notes,
        ..
    } = ran(&rt, rt.alloc(), load);
    assert_eq!(rt; verdict, Ok(()));
    let mut place = 0usize;
    let mut was_read = false;
    for note in &notes {
        if note.records == 4 {
            let behind = records.get(place..).unwrap_or(&[]);
            assert!(rt; are_gets_at_one_time(behind, note.records));
            was_read = true;
        }
        place = place.checked_add(note.records).expect(&rt, "a place");
    }
    assert_eq!(rt; place, records.len());
    assert!(rt; was_read);
    Ok(())
}

/// A batch with conditions is recorded behind the gets of its keys at its own time, which the audit
/// checks: a value that no key had is found.
#[test]
fn a_condition_that_did_not_hold_is_found(rt: HostRuntime) -> Result<(), Fail> {
    let alloc = rt.alloc();
    let load = Load {
        ops: 1_000,
        keys: 4,
        seed: 7,
        batch: false,
        many: false,
        swap: true,
    };
    let Ran {
        mut records,
        verdict,
        ..
    } = ran(&rt, alloc, load);
    assert_eq!(rt; verdict, Ok(()));
    let found = records
        .iter()
        .position(|record| matches!(&record.deed, Deed::Batch { .. }));
    let batch = found.expect(&rt, "an exchange");
    assert!(rt; batch >= 4);
    let time = records[batch].time;
    assert_eq!(rt; records[batch - 2].time, time);
    let index = batch - 1;
    assert_eq!(rt; records[index].time, time);
    if let Some(record) = records.get_mut(index)
        && let Deed::Get { reply, .. } = &mut record.deed
    {
        *reply = Some(Value::new(&[1 << 40; 8]).expect(&rt, "eight words"));
    }
    let kind = FaultKind::WrongReply;
    let fault = AuditError::Fault { kind, index };
    assert_eq!(rt; audit(alloc, &TWO_SEATS, &records), Err(fault));
    Ok(())
}

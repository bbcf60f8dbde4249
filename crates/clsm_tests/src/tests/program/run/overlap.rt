//! Two workers of a run overlap: each is held until the other has gone on. An altered answer of
//! theirs is found.
use super::*;
use clsm_store::{Pace, open_paced};
use clsm_words::Kind as StepKind;
use std::sync::atomic::AtomicU64;
use std::sync::atomic::Ordering::SeqCst;
use std::thread;

/// How often a held worker looks before it goes on without the other.
const LOOKS: u64 = 10_000_000;

/// How many steps the other worker has to take.
const STEPS: u64 = 100;

/// The steps that the workers 0 and 1 took, and how often one went on without the other.
#[derive(Drop)]
struct Steps {
    first: AtomicU64,
    second: AtomicU64,
    alone: AtomicU64,
}

impl Steps {
    /// Holds a worker until the other has taken its steps.
    fn hold(&self, other: &AtomicU64) {
        for _ in 0..LOOKS {
            if other.load(SeqCst) >= STEPS {
                return;
            }
            thread::yield_now();
        }
        self.alone.fetch_add(1, SeqCst);
    }
}

/// Holds worker 0 before its second step until worker 1 has taken 100, and then worker 1 before its
/// next one until worker 0 has taken 100.
#[derive(Drop)]
struct Turns<'a>(&'a Steps);

impl Pace for Turns<'_> {
    fn step(&self, seat: u64, _: StepKind) {
        let steps = self.0;
        if seat == 0 {
            if steps.first.load(SeqCst) == 1 {
                steps.hold(&steps.second);
            }
            steps.first.fetch_add(1, SeqCst);
        } else if seat == 1 {
            if steps.second.load(SeqCst) == STEPS {
                steps.hold(&steps.first);
            }
            steps.second.fetch_add(1, SeqCst);
        }
    }
}

/// Changes the first get's answer to a value that no call wrote, and answers its index.
fn alter_first_get(rt: &impl Abort, records: &mut [CallRecord]) -> usize {
    let other = Value::new(&[1 << 40; 8]).expect(rt, "eight words");
    let found = records
        .iter()
        .position(|record| matches!(&record.deed, Deed::Get { .. }));
    let index = found.expect(rt, "a get");
    if let Some(record) = records.get_mut(index)
        && let Deed::Get { reply, .. } = &mut record.deed
    {
        *reply = Some(other);
    }
    index
}

#[test]
fn workers_overlap(rt: HostRuntime) -> Result<(), Fail> {
    let alloc = rt.alloc();
    let steps = Steps {
        first: AtomicU64::new(0),
        second: AtomicU64::new(0),
        alone: AtomicU64::new(0),
    };
    let config = TWO_SEATS;
    let opened = open_paced(alloc, config, Turns(&steps)).expect(&rt, "memory");
    let mut faults = Screen::sound(alloc);
    let asked = AskedRun {
        config,
        waits: false,
        load: LOAD,
        shows: PLAIN,
    };
    let ran = run_on(&rt, alloc, &asked, opened, &mut faults);
    let Ran {
        mut records,
        verdict,
        ..
    } = ran.expect(&rt, "memory and a clock");
    assert_eq!(rt; steps.alone.load(SeqCst), 0);
    assert!(rt; steps.first.load(SeqCst) >= STEPS);
    assert!(rt; steps.second.load(SeqCst) >= STEPS);
    assert_eq!(rt; verdict, Ok(()));
    let index = alter_first_get(&rt, &mut records);
    let kind = FaultKind::WrongReply;
    let fault = AuditError::Fault { kind, index };
    assert_eq!(rt; audit(alloc, &config, &records), Err(fault));
    Ok(())
}

//! The seats of a run's workers settle, and their records are audited.
ghost use Rattle.clsm_store_calls.specs.Seats.{AreNew, IsNewMerger};

use super::*;
use clsm_store::{Free, Opened, open};
use clsm_workload::{Crew, Gathered, Task, gather, work_merging};

/// Lets the seats make the calls of the load beside the merger, and settles them. Answers how many
/// calls there are, and what the audit says of them.
fn settle<R: Abort + Threads + Sync + Clock + Wait>(
    rt: &R,
    alloc: Global,
    config: &Config,
    opened: Opened<Free>,
    load: &Load,
) -> (usize, Result<(), AuditError>)
    requires seats { AreNew opened.store config.now.seats opened.seats.items }
    requires merger { IsNewMerger opened.store opened.merger }
{
    let Opened {
        store,
        seats,
        merger,
    } = opened;
    let task = Task::new(*load, PLAIN);
    let crew = Crew {
        store: &store,
        seats,
        merger,
    };
    let mut faults = Screen::sound(alloc);
    let (worked, _) = work_merging(rt, alloc, crew, &task, &mut faults);
    let Gathered { seats, records, .. } = gather(alloc, worked.expect(rt, "memory")).expect(
        rt, "memory",
    );
    store.settle(seats);
    (records.len(), audit(alloc, config, &records))
}

/// A million calls, batches and calls of several keys among them, except those that find no room
/// before the next merge. A call of several keys makes up to five records.
#[test]
fn settled_seats_are_audited(rt: HostRuntime) -> Result<(), Fail> {
    let alloc = rt.alloc();
    let config = FOUR_SEATS;
    let opened = open(alloc, config).expect(&rt, "memory");
    let load = Load {
        ops: 250_000,
        keys: 64,
        seed: 7,
        batch: true,
        many: true,
        swap: true,
    };
    let (calls, verdict) = settle(&rt, alloc, &config, opened, &load);
    assert!(rt; calls <= 2_000_000);
    assert_eq!(rt; verdict, Ok(()));
    Ok(())
}

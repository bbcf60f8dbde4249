//! Calls of a store beside those of a map, and beside a merger or scans.
use crate::calls::{Lap, Round, put_filled, work_all};
use crate::draws::Series;
use crate::extra::Extra;
use crate::failure::Failure;
use crate::lines::Beside;
use crate::sizes::Work;
use crate::stores::{StoreJob, work_on};
use crate::sweeper::Sweeper;
use crate::target::MapCaller;
use clsm_model::Value;
use clsm_store::{Caller, Merger};
use clsm_words::Free;
use std::alloc::{AllocError, Global};
use std::collections::BTreeMap;
use std::rt::Clock;
use std::sync::atomic::AtomicBool;
use std::sync::atomic::Ordering::SeqCst;
use std::sync::{RwLock, Wait};
use std::thread::{Threads, join};

/// A round, and what goes on beside its calls.
#[derive(Clone, Copy)]
pub struct Scene<'a> {
    beside: &'a Beside,
    round: &'a Round<'a>,
}

/// The calls of the callers but the last one, which fills the store first and is then beside them.
pub fn work_beside<R: Threads + Sync + Clock + Wait>(
    rt: &R,
    alloc: Global,
    mut callers: Vec<Caller<'_, Free>>,
    merger: Merger<'_, Free>,
    scene: &Scene,
) -> Result<Lap, Failure> {
    let Some(caller) = callers.pop() else {
        return Err(Failure::Unanswered);
    };
    let sweeper = Sweeper::new(merger);
    let mut extra = Extra { caller, sweeper };
    extra.fill(rt, alloc, scene.round.series)?;
    disturb_all(rt, alloc, callers, extra, scene)
}

/// The calls of these callers, and what goes on beside them.
fn disturb_all<R: Threads + Sync + Clock + Wait>(
    rt: &R,
    alloc: Global,
    callers: Vec<Caller<'_, Free>>,
    extra: Extra<'_>,
    scene: &Scene,
) -> Result<Lap, Failure> {
    let Scene { beside, round } = scene;
    let stop = AtomicBool::new(false);
    let (disturbed, lap) = join(
        rt,
        || -> Result<(), Failure> {
            let mut extra = extra;
            extra.disturb(rt, alloc, beside, round.series.keys, &stop)
        },
        || -> Result<Lap, Failure> {
            let lap = work_all(rt, alloc, callers, round);
            stop.store(true, SeqCst);
            lap
        },
    );
    disturbed?;
    lap
}

/// The calls of each of so many threads on a store that is opened and filled for them, beside what
/// is to go on at one more seat, which fills it.
pub fn store_lap<R: Threads + Sync + Clock + Wait>(
    rt: &R,
    alloc: Global,
    work: &Work,
    beside: &Beside,
) -> Result<Lap, Failure> {
    let is_merged = matches!(beside, Beside::Merger | Beside::Batcher);
    let series = Series::new(alloc, work)?;
    let round = &work.round(&series, is_merged);
    let scene = &Scene { beside, round };
    work_on(rt, alloc, work.sizes(is_merged), StoreJob::Beside(scene))
}

/// So many callers of the map.
fn callers_of<'a>(
    alloc: Global,
    map: &'a RwLock<BTreeMap<u64, Value>>,
    threads: u32,
) -> Result<Vec<MapCaller<'a>>, AllocError> {
    let mut callers = Vec::new(alloc);
    for number in 0..threads {
        callers.push(MapCaller { number, map })?;
    }
    Ok(callers)
}

/// The same calls of a map that is made and filled for them.
pub fn map_lap<R: Threads + Sync + Clock + Wait>(
    rt: &R,
    alloc: Global,
    work: &Work,
) -> Result<Lap, Failure> {
    let map = RwLock::new(BTreeMap::new(alloc));
    let mut callers = callers_of(alloc, &map, work.threads)?;
    let series = Series::new(alloc, work)?;
    if let Some(caller) = callers.first_mut() {
        put_filled(rt, alloc, caller, 0..series.keys, series.keys)?;
    }
    work_all(rt, alloc, callers, &work.round(&series, false))
}

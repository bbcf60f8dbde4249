//! Writes of threads by batches, beside the same writes by puts.
ghost use Rattle.std.specs.Prelude.{◌≡◌, IfOk};

use crate::calls::Lap;
use crate::draws::{Call, Draws, FILLER, Series, key_of};
use crate::failure::Failure;
use crate::lines::Way;
use crate::sizes::Work;
use crate::stores::{StoreJob, work_on};
use crate::target::Target;
use clsm_model::{Change, Value};
use std::alloc::{AllocError, Global};
use std::rt::Clock;
use std::sync::Wait;
use std::thread::Threads;
use std::time::Instant;

/// The members of the batches that go on beside other calls.
const BESIDE: u32 = 16;

/// What is written by a put of this word.
fn change_of(word: u64) -> Change {
    Change::Set(Value::new(&[word]).unwrap())
}

/// So many members, at the first of the filled keys.
pub fn filled_members(alloc: Global, keys: u32) -> Result<Vec<(u64, Change)>, AllocError> {
    let mut members = Vec::new(alloc);
    for index in 0..BESIDE.min(keys) {
        members.push((key_of(FILLER, index), change_of(u64::from(index))))?;
    }
    Ok(members)
}

/// Puts the writes from this index on in the place of the members.
fn draw_members(draws: &mut Draws, first: u32, members: &mut [(u64, Change)]) {
    let mut index = first;
    for member in members {
        if let Call::Put { key, word } = draws.call(index) {
            *member = (key, change_of(word));
        }
        index = index.wrapping_add(1);
    }
}

/// So many writes, by batches of so many members.
#[derive(Clone, Copy)]
pub struct Batches {
    pub members: u32,
    pub writes: u32,
}

/// Makes these writes at the target. Refused where one is not answered.
pub fn work_batches<T: Target, R: Wait + Clock>(
    rt: &R,
    alloc: Global,
    target: &mut T,
    draws: &mut Draws,
    batches: Batches,
) -> Result<Lap, Failure>
    ensures { IfOk result (λ lap. lap.calls ≡ batches.writes) }
{
    let Batches { members, writes } = batches;
    let mut row = vec![in alloc; (0, Change::Keep); members as usize]?;
    let mut first = 0_u32;
    let start = Instant::now(rt)?;
    for _ in 0..writes / members.max(1) {
        draw_members(draws, first, &mut row);
        if !target.write_all(rt, &row) {
            return Err(Failure::Unanswered);
        }
        first = first.wrapping_add(members);
    }
    let end = Instant::now(rt)?;
    Ok(Lap {
        calls: writes,
        start,
        end,
    })
}

/// The writes of each of so many threads on a store that is opened for them: by batches, or in the
/// second way by puts.
pub fn batch_lap<R: Threads + Sync + Clock + Wait>(
    rt: &R,
    alloc: Global,
    work: &Work,
    way: Way,
) -> Result<Lap, Failure> {
    let mut series = Series::new(alloc, work)?;
    if way == Way::First {
        series.members = Some(work.members());
    }
    let round = &work.round(&series, false);
    work_on(rt, alloc, work.sizes(false), StoreJob::Writes(round))
}

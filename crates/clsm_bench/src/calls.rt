//! The calls of threads, that were all answered, and their time.
ghost use Rattle.std.specs.Prelude.{◌≡◌, IfOk};

use crate::batches::{Batches, work_batches};
use crate::draws::{Call, Draws, FILLER, Series, key_of};
use crate::failure::Failure;
use crate::target::Target;
use std::alloc::Global;
use std::ops::Range;
use std::rt::Clock;
use std::sync::Wait;
use std::sync::atomic::AtomicU64;
use std::sync::atomic::Ordering::SeqCst;
use std::thread::{self, Threads};
use std::time::Instant;

/// How often a thread looks whether the others have come, before it goes on without them.
const MOST_LOOKS: u32 = 1 << 20;

/// Calls that were answered, and when they were made.
#[derive(Clone, Copy)]
pub struct Lap {
    /// The calls of each thread.
    pub calls: u32,
    pub start: Instant,
    pub end: Instant,
}

impl Lap {
    /// Both laps as one: from when the first of them began to when the last one ended.
    fn joined(self, other: Lap) -> Lap {
        Lap {
            calls: self.calls,
            start: self.start.min(other.start),
            end: self.end.max(other.end),
        }
    }
}

/// The laps of all threads as one. Refused where one is, or there is none.
pub fn whole(laps: Vec<Result<Lap, Failure>>) -> Result<Lap, Failure> {
    let mut whole: Option<Lap> = None;
    for lap in laps {
        let lap = lap?;
        whole = Some(match whole {
            Some(whole) => whole.joined(lap),
            None => lap,
        });
    }
    whole.ok_or(Failure::Unanswered)
}

/// Puts at the filled keys of these indices, again from the first one on behind the last of so
/// many.
pub fn put_filled<T: Target, R: Wait>(
    rt: &R,
    alloc: Global,
    target: &mut T,
    indices: Range<u32>,
    keys: u32,
) -> Result<(), Failure> {
    for index in indices {
        let index = index % keys.max(1);
        let (key, word) = (key_of(FILLER, index), u64::from(index));
        if !target.make(rt, alloc, &Call::Put { key, word }) {
            return Err(Failure::Unanswered);
        }
    }
    Ok(())
}

/// Makes so many of these calls at the target, and counts those that are answered as they should
/// be. Refused where one is not.
fn work<T: Target, R: Wait + Clock>(
    rt: &R,
    alloc: Global,
    target: &mut T,
    draws: &mut Draws,
    calls: u32,
) -> Result<Lap, Failure>
    ensures { IfOk result (λ lap. lap.calls ≡ calls) }
{
    let mut answered = 0;
    let start = Instant::now(rt)?;
    for index in 0..calls {
        if !target.make(rt, alloc, &draws.call(index)) {
            return Err(Failure::Unanswered);
        }
        answered += 1;
    }
    let end = Instant::now(rt)?;
    Ok(Lap {
        calls: answered,
        start,
        end,
    })
}

/// What all threads of a measurement share: so many of them make so many calls of the series each,
/// by batches where it has members, all from the same moment on.
#[derive(Drop)]
pub struct Round<'a> {
    pub series: &'a Series<'a>,
    pub calls: u32,
    pub threads: u32,
    come: AtomicU64,
}

impl<'a> Round<'a> {
    pub fn new(series: &'a Series<'a>, calls: u32, threads: u32) -> Round<'a>
        ensures { result.calls ≡ calls }
    {
        Round {
            series,
            calls,
            threads,
            come: AtomicU64::new(0),
        }
    }

    /// Counts a thread that has come, and looks for the others: a bounded number of times, as the
    /// threads may run one after another.
    fn meet(&self) {
        self.come.fetch_add(1, SeqCst);
        for _ in 0..MOST_LOOKS {
            if self.come.load(SeqCst) >= u64::from(self.threads) {
                return;
            }
            thread::yield_now();
        }
    }

    /// Makes the calls of one thread, when the others have come. Refused where one is not answered.
    pub fn run<T: Target, R: Wait + Clock>(
        &self,
        rt: &R,
        alloc: Global,
        target: &mut T,
    ) -> Result<Lap, Failure>
        ensures { IfOk result (λ lap. lap.calls ≡ self.now.calls) }
    {
        let calls = self.calls;
        let mut draws = Draws::new(alloc, self.series, target.number(), calls)?;
        self.meet();
        match self.series.members {
            Some(members) => {
                let batches = Batches {
                    members,
                    writes: calls,
                };
                work_batches(rt, alloc, target, &mut draws, batches)
            }
            None => work(rt, alloc, target, &mut draws, calls),
        }
    }
}

/// Lets a thread at each target make its calls of the round: the time is from when the first began
/// to when the last ended. Refused where one is not answered.
pub fn work_all<T: Target + Send + Drop, R: Threads + Sync + Clock + Wait>(
    rt: &R,
    alloc: Global,
    targets: Vec<T>,
    round: &Round,
) -> Result<Lap, Failure> {
    let laps = thread::map_vec(
        rt,
        targets,
        &|target: T| -> Result<Lap, Failure>
            ensures { IfOk result (λ lap. lap.calls ≡ round.entry.now.calls) }
        {
            let mut target = target;
            round.run(rt, alloc, &mut target)
        },
    )?;
    whole(laps)
}

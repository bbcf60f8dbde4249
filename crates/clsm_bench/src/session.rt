//! Calls of the callers of a session, whose merger goes on beside them.
ghost use Rattle.std.specs.Prelude.{◌≡◌, IfOk, IfSome};

use crate::calls::{Lap, Round, put_filled, whole};
use crate::draws::{Puts, Series};
use crate::failure::Failure;
use crate::sizes::Work;
use crate::target::Target;
use clsm_session::{Job, Place, SessionCaller, with_store};
use std::alloc::Global;
use std::rt::Clock;
use std::sync::{OnceLock, Wait};
use std::thread::Threads;

/// Puts at the filled keys that are to be merged, and then at those that are not. When they are
/// merged is the session's choice: from half an epoch on, so that they may be in a run of level 0.
fn fill<T: Target, R: Wait>(
    rt: &R,
    alloc: Global,
    target: &mut T,
    series: &Series,
) -> Result<(), Failure> {
    let Puts {
        merges,
        frozen,
        last,
    } = series.puts();
    let merged = merges.saturating_mul(series.cells).min(series.keys);
    for puts in [merged, frozen, last] {
        put_filled(rt, alloc, target, 0..puts, series.keys)?;
    }
    Ok(())
}

/// A round on the store of a session: the last caller fills the store, and each of the others then
/// makes the calls of a thread.
#[derive(Drop)]
struct FilledRound<'a, R> {
    rt: &'a R,
    alloc: Global,
    round: &'a Round<'a>,
    /// Whether the store was filled, once the last caller has ended.
    is_filled: OnceLock<bool>,
}

impl<R: Clock + Wait + Sync> Job for FilledRound<'_, R> {
    /// The lap of a thread; none of the last caller.
    type Answer = Option<Result<Lap, Failure>>;

    fn run<W: Wait, P: Place>(&self, caller: &mut SessionCaller<'_, W, P>) -> Self::Answer
        ensures { IfSome result (λ lap. IfOk lap (λ lap. lap.calls ≡ self.now.round.now.calls)) }
    {
        if caller.number() >= self.round.threads {
            let filled = fill(self.rt, self.alloc, caller, self.round.series);
            let _ = self.is_filled.set(self.rt, filled.is_ok());
            return None;
        }
        if !*self.is_filled.wait(self.rt) {
            return Some(Err(Failure::Unanswered));
        }
        Some(self.round.run(self.rt, self.alloc, caller))
    }
}

/// The calls of each of so many threads on the store of a session that is opened for them and that
/// one more caller fills.
pub fn session_lap<R: Threads + Sync + Clock + Wait>(
    rt: &R,
    alloc: Global,
    work: &Work,
) -> Result<Lap, Failure> {
    let series = Series::new(alloc, work)?;
    let round = work.round(&series, true);
    let job = FilledRound {
        rt,
        alloc,
        round: &round,
        is_filled: OnceLock::new(),
    };
    let ended = with_store(rt, alloc, work.sizes(true), &job)?;
    whole(ended.answers.into_iter().flatten().collect(alloc)?)
}

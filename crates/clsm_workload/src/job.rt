//! The work of a session's callers: that of a worker.
ghost use Rattle.std.specs.Prelude.{◌≡◌};

use crate::task::Task;
use crate::worker::{Made, work};
use clsm_session::{Job, Place, SessionCaller};
use std::alloc::Global;
use std::marker::{Brand, PhantomData};
use std::rt::Clock;
use std::sync::Wait;

/// How much each caller is asked to do. It is for proofs alone: what is said of the answers of a
/// session's callers names it.
pub trait Loaded {
    ghost use Rattle.clsm_workload.specs.declared.load.Load.{Load};

    ghost load: { Load };
}

impl Loaded for Brand {
    ghost use Rattle.std.specs.Prelude.{false};
    ghost use Rattle.std.proofs.Common.{arith};

    ghost load = { record {
      ops = 0;
      keys = 1;
      seed = 0;
      batch = false;
      many = false;
      swap = false;
      some_keys = omega arith;
      not_too_many_keys = omega arith;
    } };
}

/// The work of each caller of the session.
#[derive(Drop)]
pub struct Waiting<'a, R, L: Loaded> {
    pub rt: &'a R,
    pub alloc: Global,
    pub task: &'a Task,
    pub load: PhantomData<L>,
    ghost load_is: { task.now.load ≡ L.load },
}

impl<R: Clock + Wait + Sync, L: Loaded + Sync> Job for Waiting<'_, R, L> {
    ghost use Rattle.clsm_workload.specs.Calls.{Works};

    type Answer = Made;

    ghost does = { λ old new made. Works L.load old new made };

    fn run<W: Wait, P: Place>(&self, caller: &mut SessionCaller<'_, W, P>) -> Made {
        work(self.rt, self.alloc, caller, self.task)
    }
}

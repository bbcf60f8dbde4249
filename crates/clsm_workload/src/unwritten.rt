//! Why a batch with conditions was not written.
ghost use Rattle.std.specs.Prelude.{◌≡◌};
ghost use Rattle.clsm_workload.specs.Turns.{unmet_of};

use clsm_model::Time;
use clsm_session::BatchIfRefused;
use clsm_store::BatchIfError;

/// Why a batch with conditions was not written.
#[derive(Clone, Copy, PartialEq, Eq, Debug)]
pub enum Unwritten {
    /// The store refused it at once.
    AtOnce(BatchIfError),
    /// A session refused it, in the last of its tries.
    AtLast(BatchIfRefused),
}

impl Unwritten {
    /// The place of the condition that did not hold, and the time at which it did not, if that is
    /// why.
    pub fn unmet(&self) -> Option<(usize, Time)>
        ensures { result ≡ unmet_of self.now }
    {
        match self {
            Unwritten::AtOnce(BatchIfError::Unmet { index, time })
            | Unwritten::AtLast(BatchIfRefused::Unmet { index, time }) => Some((*index, *time)),
            _ => None,
        }
    }
}

//! All calls that are planned: the plain ones, and batches with conditions.
ghost use Rattle.std.specs.Prelude.{◌≡◌};
ghost use Rattle.clsm_planner.specs.Testing.{conditions_of};

use clsm_model::{Change, Deal, Key, Value};

/// A condition on the map: what a key has, or how many keys of a range have a value.
#[derive(Clone, Copy, PartialEq, Eq, Debug)]
pub enum Condition {
    /// The key has this value, or none.
    Has(Key, Option<Value>),
    /// So many keys from `lo` to `hi` have a value.
    Counts { lo: Key, hi: Key, keys: u64 },
}

/// A call that an exploration hands to a seat.
#[derive(Drop)]
pub enum AnyDeal {
    Plain(Deal),
    /// A batch that is written if each condition holds at its own time. One with more members than
    /// an epoch has cells is planned as one that finds no room; the store refuses it before any step.
    BatchIf {
        conditions: Vec<Condition>,
        members: Vec<(u64, Change)>,
    },
}

impl AnyDeal {
    /// The conditions of the call; none where it is a plain one.
    pub fn conditions(&self) -> &[Condition]
        ensures { result.now ≡ conditions_of self.now }
    {
        match self {
            AnyDeal::Plain(_) => &[],
            AnyDeal::BatchIf { conditions, .. } => conditions.as_slice(),
        }
    }

    /// The members of the call, in their order; none where it is no batch.
    pub(crate) fn members(&self) -> &[(u64, Change)] {
        match self {
            AnyDeal::Plain(Deal::Batch { members }) => members,
            AnyDeal::Plain(_) => &[],
            AnyDeal::BatchIf { members, .. } => members.as_slice(),
        }
    }
}

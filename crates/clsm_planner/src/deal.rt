//! What a call asks for, as far as the planner needs it.
ghost use Rattle.std.specs.Prelude.{◌↔◌, IsTrue};
ghost use Rattle.clsm_planner.specs.Playing.{IsPassedOver};

use crate::any_deal::AnyDeal;
use clsm_model::{Deal, are_writes};

/// Whether the call is passed over: it asks for an open snapshot where there is none, or for none
/// where one is open; or it is a batch with a member that keeps its key, which is refused before
/// any step.
pub fn is_passed_over(deal: &AnyDeal, has_snapshot: bool) -> bool
    ensures { IsTrue result ↔ IsPassedOver has_snapshot deal.now }
{
    match deal {
        AnyDeal::Plain(Deal::Snap) => has_snapshot,
        AnyDeal::Plain(Deal::Close | Deal::GetAt { .. }) => !has_snapshot,
        AnyDeal::Plain(Deal::Batch { members }) => !are_writes(members),
        AnyDeal::BatchIf { members, .. } => !are_writes(members.as_slice()),
        _ => false,
    }
}

/// The key that the call is about, and 0 where it is about none or many.
pub(crate) fn key_of(deal: &AnyDeal) -> u64 {
    match deal {
        AnyDeal::Plain(
            Deal::Put { key, .. }
            | Deal::Remove { key }
            | Deal::Get { key }
            | Deal::Add { key, .. }
            | Deal::Claim { key, .. }
            | Deal::GetAt { key },
        ) => *key,
        _ => 0,
    }
}

/// Whether the call reads its key and then writes it.
pub(crate) fn is_change(deal: &AnyDeal) -> bool {
    matches!(deal, AnyDeal::Plain(Deal::Add { .. } | Deal::Claim { .. }))
}

/// Whether the call is a batch with conditions.
pub(crate) fn is_batch_if(deal: &AnyDeal) -> bool {
    matches!(deal, AnyDeal::BatchIf { .. })
}

/// Whether the call takes the lock alone.
pub(crate) fn is_batch(deal: &AnyDeal) -> bool {
    matches!(
        deal,
        AnyDeal::Plain(Deal::Batch { .. }) | AnyDeal::BatchIf { .. }
    )
}

//! The members of batches.
ghost use Rattle.std.specs.Prelude.{◌≡◌, ◌↔◌, ◌==◌, ◌++◌, ◌∷◌, [], IsTrue, MatchResult};
ghost use Rattle.std.specs.Cmp.{unsigned_Decides, and_equiv, on_equiv, nat_eq_equiv, partial_equiv_from_equiv};
ghost use Rattle.std.specs.Cmp.Lexicographic.{pointwise, lists_equiv};
ghost use Rattle.std.specs.Hash as fed;
ghost use Rattle.std.specs.Hash.{items_Alike, and-Alike, on_Alike, same_Alike};
ghost use Rattle.std.specs.Ordering.{on, eq_of_both};
ghost use Rattle.clsm_model.specs.Right.{AreWrites};
ghost use Rattle.clsm_model.specs.contracts.slot.ChangeEq.TheImpl.Laws as change_laws;
ghost use Rattle.clsm_model.specs.contracts.slot.ChangeHash.TheImpl.Laws as change_hash_laws;

use crate::slot::Change;
use std::alloc::AllocError;
use std::hash::{Hash, Hasher};
use std::marker::Model;

/// The members of a batch, in their order: keys with what is written there. Contracts see the list
/// of the pairs.
#[derive(Drop, Debug)]
pub struct Members {
    items: Vec<(u64, Change)>,
}

impl Model for Members {
    ghost use Rattle.std.specs.Prelude.{ℕ, List};
    ghost use Rattle.clsm_model.specs.declared.slot.Change.{Change};

    ghost Value = { List (ℕ × Change) };

    ghost view = { λ m. m.items.items };
}

impl Members {
    /// The members of this list.
    pub fn new(items: Vec<(u64, Change)>) -> Members
        ensures { result ≡ items.items }
    {
        Members { items }
    }

    /// The pairs, in their order.
    pub fn as_slice(&self) -> &[(u64, Change)]
        ensures { result.now ≡ self.now }
    {
        self.items.as_slice()
    }
}

impl Members {
    /// Puts the pair behind the others. Refused if memory runs out; they then stay as they were.
    pub fn push(&mut self, member: (u64, Change)) -> Result<(), AllocError>
        ensures { MatchResult result (λ _. self.new ≡ self.old ++ member ∷ []) (λ _. self.new ≡ self.old) }
    {
        self.items.push(member)?;
        Ok(())
    }

    /// Takes them all away.
    pub fn clear(&mut self)
        ensures { self.new ≡ [] }
    {
        self.items.clear();
    }
}

impl PartialEq for Members {
    ghost eq = { pointwise (eq_of_both (on (λ member. member.0) ◌==◌) (on (λ member. member.1) ⟦<Change as PartialEq>⟧.eq)) };

    ghost laws = { partial_equiv_from_equiv
        (lists_equiv (and_equiv (on_equiv (λ member. member.0) nat_eq_equiv) (on_equiv (λ member. member.1) change_laws.laws-law))) };

    /// Whether the pairs are the same, in the same order.
    fn eq(&self, other: &Members) -> bool {
        self.items == other.items
    }
}

impl Eq for Members {
    ghost laws = { lists_equiv (and_equiv (on_equiv (λ member. member.0) nat_eq_equiv) (on_equiv (λ member. member.1) change_laws.laws-law)) };
}

impl Hash for Members {
    ghost hash_input = { fed.slice (λ member. fed.u64 member.0 ++ ⟦<Change as Hash>⟧.hash_input member.1) };

    ghost respects_eq = { (items_Alike (and-Alike (on_Alike (λ member. member.0) (same_Alike fed.u64 unsigned_Decides))
        (on_Alike (λ member. member.1) (record { fed = change_hash_laws.respects_eq-law })))).fed };

    fn hash<H: Hasher>(&self, state: &mut H) {
        self.items.hash(state);
    }
}

impl Clone for Members {
    ghost is_clone = { λ original copy. copy ≡ original };

    /// The same members. Refused if memory runs out.
    fn clone(&self) -> Result<Members, AllocError> {
        let items = self.items.clone()?;
        Ok(Members { items })
    }
}

/// Whether each of these members is a write: none keeps its key.
pub fn are_writes(members: &[(u64, Change)]) -> bool
    ensures { IsTrue result ↔ AreWrites members.now }
{
    members
        .iter()
        .all(|member| !matches!(member.1, Change::Keep))
}

//! The rows that scans and pages answer.
ghost use Rattle.std.specs.Prelude.{◌≡◌, ◌==◌, ◌++◌};
ghost use Rattle.std.proofs.Common.{rules};
ghost use Rattle.std.specs.Cmp.{unsigned_Decides};
ghost use Rattle.std.specs.Cmp.Lexicographic.{pointwise, bytes_decides};
ghost use Rattle.std.specs.Cmp.Rules.{comparing};
ghost use Rattle.std.specs.Hash as fed;
ghost use Rattle.std.specs.Hash.{items_Alike, and-Alike, on_Alike, same_Alike};
ghost use Rattle.std.specs.Ordering.{on, eq_of_both};

use crate::value::Value;
use std::alloc::AllocError;
use std::hash::{Hash, Hasher};
use std::marker::Model;

/// The rows of a scan or a page: keys with their values. Contracts see the list of the pairs.
#[derive(Drop, Debug)]
pub struct Rows {
    items: Vec<(u64, Value)>,
}

impl Model for Rows {
    ghost use Rattle.std.specs.Prelude.{ℕ, List};

    ghost Value = { List (ℕ × List ℕ) };

    ghost view = { λ r. r.items.items };
}

impl Rows {
    /// The rows of this list.
    pub fn new(items: Vec<(u64, Value)>) -> Rows
        ensures { result ≡ items.items }
    {
        Rows { items }
    }

    /// The pairs, in their order.
    pub fn as_slice(&self) -> &[(u64, Value)]
        ensures { result.now ≡ self.now }
    {
        self.items.as_slice()
    }
}

impl PartialEq for Rows {
    ghost eq = { pointwise (eq_of_both (on (λ row. row.0) ◌==◌) (on (λ row. row.1) (pointwise ◌==◌))) };

    ghost laws = { Prim.search (comparing, rules) };

    /// Whether the pairs are the same, in the same order.
    fn eq(&self, other: &Rows) -> bool {
        self.items == other.items
    }
}

impl Eq for Rows {
    ghost laws = { Prim.search (comparing, rules) };
}

impl Hash for Rows {
    ghost hash_input = { fed.slice (λ row. fed.u64 row.0 ++ ⟦<Value as Hash>⟧.hash_input row.1) };

    ghost respects_eq = { (items_Alike (and-Alike (on_Alike (λ row. row.0) (same_Alike fed.u64 unsigned_Decides))
        (on_Alike (λ row. row.1) (same_Alike ⟦<Value as Hash>⟧.hash_input bytes_decides)))).fed };

    fn hash<H: Hasher>(&self, state: &mut H) {
        self.items.hash(state);
    }
}

impl Clone for Rows {
    ghost is_clone = { λ original copy. copy ≡ original };

    /// The same rows. Refused if memory runs out.
    fn clone(&self) -> Result<Rows, AllocError> {
        let items = self.items.clone()?;
        Ok(Rows { items })
    }
}

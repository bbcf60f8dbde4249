//! What a caller of a visit can conclude of its own variables.
ghost use Rattle.std.specs.Prelude.{◌≡◌};

use clsm_model::Key;
use clsm_store::Caller;
use clsm_store_calls::Counted;
use clsm_words::Pace;
use std::alloc::Global;

/// Visits the keys from `lo` to `hi`, and counts how often the function of the visit is called: by
/// the contract of `visit` alone, as often as there are keys.
pub fn count_calls<P: Pace>(
    alloc: Global,
    caller: &mut Caller<P>,
    lo: Key,
    hi: Key,
) -> (u64, Counted)
    ensures { result.0 ≡ result.1.keys }
{
    let mut calls = 0_u64;
    let counted = caller.visit(alloc, lo, hi, &mut |_, _| calls = calls.saturating_add(1));
    (calls, counted)
}

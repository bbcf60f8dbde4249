//! The tests of the merger's phase.
ghost use Rattle.std.specs.Prelude.{◌≡◌};
ghost use Rattle.clsm_law.specs.Merging.{is_clean, is_frozen, is_retired};

use clsm_law::Phase;

pub(crate) fn is_clean(phase: Phase) -> bool
    ensures { result ≡ is_clean phase }
{
    match phase {
        Phase::Clean => true,
        _ => false,
    }
}

pub(crate) fn is_frozen(phase: Phase) -> bool
    ensures { result ≡ is_frozen phase }
{
    match phase {
        Phase::Frozen => true,
        _ => false,
    }
}

pub(crate) fn is_retired(phase: Phase) -> bool
    ensures { result ≡ is_retired phase }
{
    match phase {
        Phase::Retired => true,
        _ => false,
    }
}

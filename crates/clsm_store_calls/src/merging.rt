//! The merge of the frozen epoch.
ghost use Rattle.std.specs.Prelude.{◌≡◌, ◌+◌, IfErr, OnOk, length, replicate};
ghost use Rattle.clsm_law.specs.Merging.{unseen};
ghost use Rattle.clsm_words.specs.Plays.{IsSeatOf};
ghost use Rattle.clsm_store_calls.specs.Freezing.{IsFrozen};
ghost use Rattle.clsm_store_calls.specs.Merging.{IsReady, IsRetiring, IsRunFull, StaysFrozen, TakesFloor, frozen_of, merger_of};

use crate::flooring::take_floor;
use crate::merger_seat::MergerSeat;
use clsm_law::Reader;
use clsm_runs::RunFull;
use clsm_words::{Pace, Words};

/// Takes the floor of the merge.
fn renew_floor<P: Pace>(words: &Words<P>, merger: &mut MergerSeat)
    requires of { IsSeatOf words.now merger.old.raw }
    requires frozen { IsFrozen merger.old.raw.knows merger.old.merges }
    requires ready { IsReady merger.old }
    ensures of { IsSeatOf words.now merger.new.raw }
    ensures stays { StaysFrozen merger.old merger.new }
    ensures floor { TakesFloor (frozen_of merger.old) merger.new.floor merger.new.raw.knows.merger.rounds merger.new.raw.knows.merger.noted }
{
    merger.raw.show_invariant();
    let end = (merger.merges + 1) * words.cells();
    let (floor, noted) = take_floor(words, &mut merger.raw, merger.floor, end);
    merger.floor = floor;
    merger.noted = noted;
}

/// Forgets what was noted of the seats.
fn forget(seen: &mut Vec<Reader>)
    ensures { seen.new.items ≡ replicate (length seen.old.items) unseen }
{
    seen.fill(Reader {
        first_pin: None,
        quiet: false,
        looks: 0,
    });
}

/// Merges the frozen epoch into a run that readers search from then on. Refused, where the merge
/// would keep more than the run has room for, with the epoch frozen as before.
pub fn merge<P: Pace>(words: &Words<P>, merger: &mut MergerSeat) -> Result<(), RunFull>
    requires of { IsSeatOf words.now merger.old.raw }
    requires frozen { IsFrozen merger.old.raw.knows merger.old.merges }
    requires ready { IsReady merger.old }
    ensures retired { OnOk result (IsRetiring merger.new) }
    ensures counted { OnOk result (merger_of merger.new ≡ record (merger_of merger.old) { merges = merger.old.merges + 1 }) }
    ensures unseen { OnOk result (merger.new.seen.items ≡ replicate merger.old.raw.knows.layout.seats unseen) }
    ensures floor { TakesFloor (frozen_of merger.old) merger.new.floor merger.new.raw.knows.merger.rounds merger.new.raw.knows.merger.noted }
    ensures fits { OnOk result (IsRunFull (frozen_of merger.old) merger.new.floor → ⊥) }
    ensures stays { IfErr result (λ refusal. StaysFrozen merger.old merger.new) }
    ensures full { IfErr result (λ refusal. IsRunFull (frozen_of merger.old) merger.new.floor) }
{
    renew_floor(words, merger);
    merger.raw.show_invariant();
    merger.walk.restart(words, &merger.raw, merger.merges);
    clsm_runs::merge(
        words,
        &mut merger.raw,
        merger.merges,
        merger.floor,
        &mut merger.walk,
    )?;
    words.publish(&mut merger.raw, merger.merges);
    merger.merges += 1;
    forget(&mut merger.seen);
    Ok(())
}

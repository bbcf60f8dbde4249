//! The reclaim of a retired component: it is given up when no reader has it, and its region cleaned
//! for the epoch after the next.
ghost use Rattle.std.specs.Prelude.{◌≡◌, ◌+◌, ◌*◌, ◌%◌, ◌<◌, true, length, IfErr, OnOk};
ghost use Rattle.clsm_law.specs.declared.merger.Phase.TheVariants.{Clean};
ghost use Rattle.clsm_law.specs.Merging.{is_all_quiet, is_retired, retired_region};
ghost use Rattle.clsm_words.specs.Plays.{IsSeatOf};
ghost use Rattle.clsm_store_calls.specs.Freezing.{IsClean};
ghost use Rattle.clsm_store_calls.specs.Reclaiming.{AreAllQuiet, HasListsCleared, IsCleaning, IsLastWritten, IsLowestLoud, IsRetired, KeepsRetired};

use clsm_law::{Reader, Word};
use clsm_pins::quiet;
use clsm_words::{Pace, RawMerger, Words};

/// Looks at each seat that was not found quiet yet, in the order of their numbers. Refused with the
/// first that is not quiet now.
fn find_all_quiet<P: Pace>(
    words: &Words<P>,
    merger: &mut RawMerger,
    seen: &mut Vec<Reader>,
) -> Result<(), u64>
    requires of { IsSeatOf words.now merger.old }
    requires retired { is_retired merger.old.knows.merger.phase ≡ true }
    requires seen { seen.old.items ≡ merger.old.knows.merger.readers }
    ensures of { IsSeatOf words.now merger.new }
    ensures keeps { KeepsRetired merger.old.knows merger.new.knows }
    ensures seen { seen.new.items ≡ merger.new.knows.merger.readers }
    ensures let_go { OnOk result (is_all_quiet merger.new.knows.merger.readers ≡ true) }
    ensures quiet { OnOk result (AreAllQuiet merger.old.knows.merger.readers merger.new.knows.merger.readers) }
    ensures loud { IfErr result (IsLowestLoud merger.old.knows.merger.readers merger.new.knows.merger.readers) }
    ensures few { IfErr result (λ number. number < 64) }
{
    merger.show_invariant();
    for number in 0..seen.len() {
        if !seen[number].quiet && !quiet(words, merger, number as u64, &mut seen[number]) {
            return Err(number as u64);
        }
    }
    Ok(())
}

/// Empties the chains of the retired region, and its ordered list.
fn clear_lists<P: Pace>(words: &Words<P>, merger: &mut RawMerger, region: u64)
    requires of { IsSeatOf words.now merger.old }
    requires retired { (is_retired merger.old.knows.merger.phase ≡ true) × (is_all_quiet merger.old.knows.merger.readers ≡ true) }
    requires region { region ≡ retired_region merger.old.knows.merger }
    ensures of { IsSeatOf words.now merger.new }
    ensures keeps { HasListsCleared merger.old.knows merger.new.knows }
{
    for chain in 0..words.chains() {
        words.clear_head(merger, region, chain);
    }
    words.clear_order(merger, region);
}

/// The last cell of the region from `first` to before `end` whose state is not 0, or the first one.
fn last_written<P: Pace>(words: &Words<P>, merger: &mut RawMerger, first: u64, end: u64) -> u64
    requires of { IsSeatOf words.now merger.old }
    requires cleaning { IsCleaning merger.old.knows first end }
    ensures of { IsSeatOf words.now merger.new }
    ensures cleaning { IsCleaning merger.new.knows first end }
    ensures view { merger.new.knows.merger ≡ merger.old.knows.merger }
    ensures last { IsLastWritten merger.new.knows first end result }
{
    for cell in (first + 1..end).rev() {
        if words.look_as_merger(merger, Word::State(cell)) != 0 {
            return cell;
        }
    }
    first
}

/// Empties the cells of the region up to the last one that is not empty: with it the region is
/// clean.
fn clear_states<P: Pace>(words: &Words<P>, merger: &mut RawMerger, first: u64, end: u64, last: u64)
    requires of { IsSeatOf words.now merger.old }
    requires cleaning { IsCleaning merger.old.knows first end }
    requires last { IsLastWritten merger.old.knows first end last }
    ensures of { IsSeatOf words.now merger.new }
    ensures clean { merger.new.knows.merger ≡ record merger.old.knows.merger { phase = Clean } }
{
    for cell in first..last {
        words.clear_state(merger, cell);
    }
    words.clear_state(merger, last);
}

/// Gives the retired component up and cleans its region, if no seat holds anything of it. Refused
/// with the lowest seat that may.
pub fn reclaim<P: Pace>(
    words: &Words<P>,
    merger: &mut RawMerger,
    merges: u64,
    seen: &mut Vec<Reader>,
) -> Result<(), u64>
    requires of { IsSeatOf words.now merger.old }
    requires retired { IsRetired merger.old.knows merges }
    requires seen { seen.old.items ≡ merger.old.knows.merger.readers }
    ensures of { IsSeatOf words.now merger.new }
    ensures view { merger.new.knows.merger ≡ record merger.old.knows.merger
        { phase = merger.new.knows.merger.phase; readers = merger.new.knows.merger.readers } }
    ensures counted { length seen.new.items ≡ length seen.old.items }
    ensures clean { OnOk result (IsClean merger.new.knows merges) }
    ensures quiet { OnOk result (AreAllQuiet merger.old.knows.merger.readers merger.new.knows.merger.readers) }
    ensures retired { IfErr result (λ number. IsRetired merger.new.knows merges) }
    ensures seen { IfErr result (λ number. seen.new.items ≡ merger.new.knows.merger.readers) }
    ensures loud { IfErr result (IsLowestLoud merger.old.knows.merger.readers merger.new.knows.merger.readers) }
    ensures few { IfErr result (λ number. number < 64) }
{
    find_all_quiet(words, merger, seen)?;
    let region = 1 - merges % 2;
    clear_lists(words, merger, region);
    let first = region * words.cells();
    let end = first + words.cells();
    let last = last_written(words, merger, first, end);
    clear_states(words, merger, first, end, last);
    Ok(())
}

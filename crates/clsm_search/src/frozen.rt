//! The cells of a frozen epoch, as the merger reads them.
ghost use Rattle.std.specs.Prelude.{◌≡◌, true};
ghost use Rattle.std.proofs.Common.{ap, ◌∙◌};
ghost use Rattle.clsm_levels.specs.declared.entry.Entry.{Entry};
ghost use Rattle.clsm_levels.specs.Version.{version_of};
ghost use Rattle.clsm_law.specs.Memory.{is_part};
ghost use Rattle.clsm_words.specs.Changing.{Changes, NoWord};
ghost use Rattle.clsm_words.specs.Knowing.{IsPartOf, code_of};
ghost use Rattle.clsm_words.specs.Plays.{IsSeatOf};
ghost use Rattle.clsm_words.proofs.Changing.{changes_trans};
ghost use Rattle.clsm_search.specs.Searching.{slot_in, value_in};
ghost use Rattle.clsm_search.specs.Frozen.{IsEntryAt, IsFrozenTime, IsKeyOf, IsOfFrozen, IsVersionOf};
ghost use Rattle.clsm_search.specs.Staying.{frozen_stays, slot_on};

use clsm_law::{Cell, Part, Word};
use clsm_levels::Version;
use clsm_model::{Time, Value};
use clsm_words::{Load, Pace, RawMerger, Words, load_value};

/// What the state of the time's cell is.
#[inline]
fn state<P: Pace>(words: &Words<P>, merger: &mut RawMerger, time: Time, cell: Cell) -> u64
    requires of { IsSeatOf words.now merger.old }
    requires frozen { IsFrozenTime merger.old.knows time cell }
    ensures of { IsSeatOf words.now merger.new }
    ensures looks { Changes NoWord merger.old.knows merger.new.knows }
    ensures told { result ≡ code_of (slot_in merger.old.knows time) }
{
    merger.show_invariant();
    words.look_as_merger(merger, Word::State(cell))
}

/// What this part of the time's cell is.
#[inline]
fn part<P: Pace>(
    words: &Words<P>,
    merger: &mut RawMerger,
    time: Time,
    cell: Cell,
    part: Part,
) -> u64
    requires of { IsSeatOf words.now merger.old }
    requires frozen { IsFrozenTime merger.old.knows time cell }
    requires there { is_part part ≡ true }
    ensures of { IsSeatOf words.now merger.new }
    ensures looks { Changes NoWord merger.old.knows merger.new.knows }
    ensures told { IsPartOf (slot_in merger.old.knows time) part result }
{
    merger.show_invariant();
    words.look_as_merger(merger, Word::Cell { cell, part })
}

/// The cell of a time of the frozen epoch that sets a value.
#[derive(Clone, Copy)]
struct FrozenCell {
    time: Time,
    cell: Cell,
}

impl Load<RawMerger> for FrozenCell {
    ghost stands = { λ words merger at. IsSeatOf words merger × IsFrozenTime merger.knows at.time at.cell × (code_of (slot_in merger.knows at.time) ≡ 2) };

    ghost value = { λ merger at. value_in (slot_in merger.knows at.time) };

    ghost looks = { λ words a b. IsSeatOf words b × Changes NoWord a.knows b.knows };

    #[inline]
    fn length<P: Pace>(&self, words: &Words<P>, merger: &mut RawMerger) -> usize {
        merger.show_invariant();
        part(words, merger, self.time, self.cell, Part::Length) as usize
    }

    #[inline]
    fn word<P: Pace>(&self, words: &Words<P>, merger: &mut RawMerger, index: usize) -> u64 {
        merger.show_invariant();
        let wanted = Part::Value(index as u64);
        part(words, merger, self.time, self.cell, wanted)
    }

    ghost stands_on = { λ words a b at is looks. (
      looks.0,
      frozen_stays NoWord a.knows b.knows at.time at.cell looks.1 is.1,
      ap code_of (slot_on NoWord a.knows b.knows at.time looks.1 is.1.known) ∙ is.2,
    ) };

    ghost value_stays = { λ words a b at is looks. ap value_in (slot_on NoWord a.knows b.knows at.time looks.1 is.1.known) };

    ghost looks_on = { λ words a b c first then. (then.0, changes_trans NoWord a.knows b.knows c.knows first.1 then.1) };
}

/// The value of a write of a frozen epoch: none where it is a removal. It never waits and takes no
/// memory.
pub fn frozen_value<P: Pace>(
    words: &Words<P>,
    merger: &mut RawMerger,
    version: &Version,
) -> Option<Value>
    requires of { IsSeatOf words.now merger.old }
    requires written { (e : Entry) × IsEntryAt merger.old.knows e × (version_of e ≡ version.now) }
    ensures of { IsSeatOf words.now merger.new }
    ensures looks { Changes NoWord merger.old.knows merger.new.knows }
    ensures told { (e : Entry) → IsEntryAt merger.old.knows e → version_of e ≡ version.now → result ≡ e.value }
{
    if version.is_removal {
        return None;
    }
    merger.show_invariant();
    let time = version.time;
    let cell = words.cell_of(time);
    Some(load_value(words, merger, &FrozenCell { time, cell }))
}

/// The key of the time's write, if it is one.
pub(crate) fn key_at<P: Pace>(words: &Words<P>, merger: &mut RawMerger, time: Time) -> Option<u64>
    requires of { IsSeatOf words.now merger.old }
    requires frozen { IsOfFrozen merger.old.knows time }
    ensures of { IsSeatOf words.now merger.new }
    ensures looks { Changes NoWord merger.old.knows merger.new.knows }
    ensures key { IsKeyOf (slot_in merger.old.knows time) result }
{
    merger.show_invariant();
    let cell = words.cell_of(time);
    if state(words, merger, time, cell) < 2 {
        return None;
    }
    Some(part(words, merger, time, cell, Part::Key))
}

/// The write of the time, if it is one.
pub(crate) fn version_at<P: Pace>(
    words: &Words<P>,
    merger: &mut RawMerger,
    time: Time,
) -> Option<Version>
    requires of { IsSeatOf words.now merger.old }
    requires frozen { IsOfFrozen merger.old.knows time }
    ensures of { IsSeatOf words.now merger.new }
    ensures looks { Changes NoWord merger.old.knows merger.new.knows }
    ensures version { IsVersionOf time (slot_in merger.old.knows time) result }
{
    merger.show_invariant();
    let cell = words.cell_of(time);
    let code = state(words, merger, time, cell);
    if code < 2 {
        return None;
    }
    let key = part(words, merger, time, cell, Part::Key);
    let is_removal = code != 2;
    Some(Version {
        key,
        time,
        is_removal,
    })
}

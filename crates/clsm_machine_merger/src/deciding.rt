//! Whether the target of a merge holds what is wanted, which `Publish` asks for. It takes no
//! memory.
ghost use Rattle.std.specs.Prelude.{◌≡◌, ◌↔◌, IsTrue, length};
ghost use Rattle.std.specs.List.{AllByRecursion, Contains};
ghost use Rattle.clsm_levels.specs.declared.entry.Entry.{Entry};
ghost use Rattle.clsm_levels.specs.Run.{IsRun};
ghost use Rattle.clsm_law.specs.Layout.{memory, size_of};
ghost use Rattle.clsm_law.specs.Merging.{target_of};
ghost use Rattle.clsm_law.specs.Deciding.{IsMergeable, IsWrittenIfKept, IsEachKept, IsEachWritten, IsKept, IsPassedBy, StaysIn, written_of};
ghost use Rattle.clsm_machine_merger.specs.MergeReads.{MayMerge, source, sources, wanted, written};

use crate::entries::{PlainEntry, entry_in};
use crate::sources::{Merge, source_at, source_count};
use crate::words::{target_of, word_at};
use clsm_law::{Layout, MergerView, Word};
use clsm_levels::is_to_level_one;

/// Whether this is the source with the number.
fn is_source_at(merge: &Merge, number: u64, entry: &PlainEntry) -> bool
    requires { MayMerge merge.now }
    ensures { IsTrue result ↔ (source merge.now number ≡ Some entry.now) }
{
    match source_at(merge, number) {
        Some(source) => source.is_same(entry),
        None => false,
    }
}

/// Whether the merge reads this entry.
fn is_source(merge: &Merge, entry: &PlainEntry) -> bool
    requires { MayMerge merge.now }
    ensures { IsTrue result ↔ Contains (sources merge.now) entry.now }
{
    for number in 0..source_count(merge.layout, merge.words, merge.merger) {
        if is_source_at(merge, number, entry) {
            return true;
        }
    }
    false
}

/// Whether the source with the number, if there is one, does not hide the entry below the floor.
fn is_passed_by(merge: &Merge, number: u64, entry: &PlainEntry) -> bool
    requires { MayMerge merge.now }
    ensures { IsTrue result ↔ ((x : Entry) → source merge.now number ≡ Some x → IsPassedBy merge.now.merger.now.floor entry.now x) }
{
    match source_at(merge, number) {
        Some(source) => source.does_not_hide(entry, merge.merger.floor),
        None => true,
    }
}

/// Whether no source below the floor is a newer entry of the key.
fn is_newest(merge: &Merge, entry: &PlainEntry) -> bool
    requires { MayMerge merge.now }
    ensures { IsTrue result ↔ AllByRecursion (IsPassedBy merge.now.merger.now.floor entry.now) (sources merge.now) }
{
    for number in 0..source_count(merge.layout, merge.words, merge.merger) {
        if !is_passed_by(merge, number, entry) {
            return false;
        }
    }
    true
}

/// Whether the merge keeps the entry, if it is a source: it stays at or above the floor, and below
/// it where it is the newest of its key there, and no removal that goes to level 1.
fn is_staying(merge: &Merge, entry: &PlainEntry) -> bool
    requires { MayMerge merge.now }
    ensures { IsTrue result ↔ StaysIn merge.now.merger.now (sources merge.now) entry.now }
{
    if entry.time() >= merge.merger.floor {
        return true;
    }
    let is_needed = !is_to_level_one(merge.merger.merged) || !entry.is_removal();
    is_needed && is_newest(merge, entry)
}

/// Whether the entry is a source that the merge keeps.
fn is_kept(merge: &Merge, entry: &PlainEntry) -> bool
    requires { MayMerge merge.now }
    ensures { IsTrue result ↔ IsKept merge.now.merger.now (sources merge.now) entry.now }
{
    is_source(merge, entry) && is_staying(merge, entry)
}

/// How many entries the target has.
fn written_count(layout: &Layout, words: &[u64], merger: &MergerView) -> u64
    requires { length words.now ≡ size_of layout.now }
    ensures { result ≡ memory layout.now words.now (Word.Count (target_of merger.now)) }
{
    word_at(layout, words, Word::Count(target_of(merger)))
}

/// Whether each entry that is written is a source that the merge keeps.
fn is_each_kept(merge: &Merge) -> bool
    requires { MayMerge merge.now }
    ensures { IsTrue result ↔ IsEachKept merge.now.merger.now (sources merge.now) (written merge.now) }
{
    let target = target_of(merge.merger);
    for index in 0..written_count(merge.layout, merge.words, merge.merger) {
        let entry = entry_in(merge.layout, merge.words, target, index);
        if !is_kept(merge, &entry) {
            return false;
        }
    }
    true
}

/// Whether the entry is written.
fn is_written(layout: &Layout, words: &[u64], merger: &MergerView, entry: &PlainEntry) -> bool
    requires { IsMergeable layout.now words.now merger.now }
    ensures { IsTrue result ↔ Contains (written_of layout.now words.now merger.now) entry.now }
{
    let target = target_of(merger);
    for index in 0..written_count(layout, words, merger) {
        if entry_in(layout, words, target, index).is_same(entry) {
            return true;
        }
    }
    false
}

/// Whether the source with the number, if there is one and the merge keeps it, is written.
fn is_done_at(merge: &Merge, number: u64) -> bool
    requires { MayMerge merge.now }
    ensures { IsTrue result ↔ ((e : Entry) → source merge.now number ≡ Some e
        → IsWrittenIfKept merge.now.merger.now (sources merge.now) (written merge.now) e) }
{
    let Some(source) = source_at(merge, number) else {
        return true;
    };
    !is_staying(merge, &source) || is_written(merge.layout, merge.words, merge.merger, &source)
}

/// Whether each source that the merge keeps is written.
fn is_each_written(merge: &Merge) -> bool
    requires { MayMerge merge.now }
    ensures { IsTrue result ↔ IsEachWritten merge.now.merger.now (sources merge.now) (written merge.now) }
{
    for number in 0..source_count(merge.layout, merge.words, merge.merger) {
        if !is_done_at(merge, number) {
            return false;
        }
    }
    true
}

/// Whether what is written is in the order of a run.
fn is_run_written(layout: &Layout, words: &[u64], merger: &MergerView) -> bool
    requires { IsMergeable layout.now words.now merger.now }
    ensures { IsTrue result ↔ IsRun (written_of layout.now words.now merger.now) }
{
    let target = target_of(merger);
    for index in 1..written_count(layout, words, merger) {
        let before = entry_in(layout, words, target, index - 1);
        if !before.comes_before(&entry_in(layout, words, target, index)) {
            return false;
        }
    }
    true
}

/// Whether the target holds what the next merge is to write: a run of exactly the sources that the
/// merge keeps. It takes no memory.
pub(crate) fn is_wanted_written(merge: &Merge) -> bool
    requires { MayMerge merge.now }
    ensures { IsTrue result ↔ (written merge.now ≡ wanted merge.now) }
{
    is_run_written(merge.layout, merge.words, merge.merger)
        && is_each_kept(merge)
        && is_each_written(merge)
}

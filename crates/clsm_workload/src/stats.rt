//! How fast a run was, and what its store tells of itself.
use crate::kind::{KINDS, Kind};
use crate::merger::Merged;
use crate::progress::per_second;
use crate::ran::Ran;
use crate::turn::Outcome;
use crate::watch::Note;
use clsm_audit::Moments;
use clsm_model::{Config, Memory};
use clsm_store::Seat;
use clsm_text::Failure;
use std::alloc::Global;
use std::io::{self, Write};
use std::time::Duration;

/// Writes a line for each kind of calls: how many were answered and how many refused, how many a
/// second, and the median, the 99th and 99.9th percentile and the greatest of their times in
/// nanoseconds; a line with the refusals; a line for each figure of the store; and one with the
/// time of the calls and of the audit.
pub fn write_stats<E: Write>(
    alloc: Global,
    faults: &mut E,
    config: &Config,
    ran: &Ran,
) -> Result<(), Failure> {
    for kind in KINDS {
        write_kind(alloc, faults, &ran.notes, kind, ran.calling.time)?;
    }
    let full = count_ended(&ran.notes, Outcome::Refused);
    let unmet = count_ended(&ran.notes, Outcome::Unmet);
    writeln!(faults, "refused full {full}\nrefused unmet {unmet}")?;
    write_seats(faults, &ran.seats)?;
    if let Some(merged) = ran.calling.merged {
        write_merged(faults, config, &merged)?;
    }
    let calling = ran.calling.time.as_millis();
    let auditing = ran.auditing.as_millis();
    writeln!(faults, "milliseconds calls {calling} audit {auditing}")?;
    faults.flush()?;
    Ok(())
}

/// How many turns ended so.
fn count_ended(notes: &[Note], outcome: Outcome) -> usize {
    notes.iter().filter(|note| note.outcome == outcome).count()
}

/// Writes how many callers the store has, how many of them have a snapshot open, and the time of
/// the oldest snapshot, if there is one: figures of `clsm_statistics` in capi/clsm.h, by its names.
fn write_seats<E: Write>(faults: &mut E, seats: &[Seat]) -> io::Result<()> {
    let callers = seats.len();
    let snapshots = seats
        .iter()
        .filter(|seat| seat.snapshot_time().is_some())
        .count();
    writeln!(faults, "callers {callers}")?;
    writeln!(faults, "snapshots {snapshots}")?;
    let oldest = seats.iter().filter_map(|seat| seat.snapshot_time()).min();
    if let Some(time) = oldest {
        writeln!(faults, "oldest_time {time}")?;
    }
    Ok(())
}

/// Writes what the merger tells of a store of these sizes: figures of `clsm_statistics` in
/// capi/clsm.h, by its names and in its order.
fn write_merged<E: Write>(faults: &mut E, config: &Config, merged: &Merged) -> io::Result<()> {
    let Merged {
        merges,
        level_zero,
        level_one,
        last_merge,
        longest_merge,
        epoch_writes,
    } = *merged;
    if let Some(epoch_writes) = epoch_writes {
        let begin = merges.saturating_mul(config.cells as u64);
        let clock = begin.saturating_add(epoch_writes);
        writeln!(faults, "clock {clock}")?;
        writeln!(faults, "epoch_writes {epoch_writes}")?;
    }
    let room_for_versions = (config.run as u64).saturating_sub(level_one);
    writeln!(faults, "level_zero {level_zero}")?;
    writeln!(faults, "level_one {level_one}")?;
    writeln!(faults, "room_for_versions {room_for_versions}")?;
    writeln!(faults, "merges {merges}")?;
    writeln!(faults, "last_merge {last_merge}")?;
    writeln!(faults, "longest_merge {longest_merge}")
}

/// The times of the answered calls of a kind, by rising length. Refused if memory runs out.
fn times_of(alloc: Global, notes: &[Note], kind: Kind) -> Result<Vec<u64>, Memory> {
    let mut times = Vec::new(alloc);
    for note in notes {
        if note.outcome != Outcome::Done || note.kind != kind {
            continue;
        }
        if let Some(Moments { begin, end }) = note.moments {
            times.push(end.saturating_sub(begin)).map_err(|_| Memory)?;
        }
    }
    times.sort_unstable();
    Ok(times)
}

/// The time that so many of a thousand calls do not pass.
fn percentile(times: &[u64], thousandths: usize) -> u64 {
    let Some(last) = times.len().checked_sub(1) else {
        return 0;
    };
    let at = last as u128 * thousandths as u128 / 1_000;
    let at = usize::try_from(at).unwrap_or(last);
    times.get(at).copied().unwrap_or(0)
}

fn write_kind<E: Write>(
    alloc: Global,
    faults: &mut E,
    notes: &[Note],
    kind: Kind,
    time: Duration,
) -> Result<(), Failure> {
    let times = times_of(alloc, notes, kind).map_err(|_| Failure::Memory)?;
    let answered = times.len();
    let refused = notes
        .iter()
        .filter(|note| note.kind == kind && note.outcome != Outcome::Done)
        .count();
    let rate = per_second(answered as u64, time);
    let name = kind.name();
    let median = percentile(&times, 500);
    let percentile_99 = percentile(&times, 990);
    let percentile_99_9 = percentile(&times, 999);
    let greatest = percentile(&times, 1_000);
    write!(
        faults,
        "{name} answered {answered} refused {refused} calls/s {rate}"
    )?;
    write!(
        faults,
        " nanoseconds median {median} p99 {percentile_99} p99.9 {percentile_99_9}"
    )?;
    writeln!(faults, " greatest {greatest}")?;
    Ok(())
}

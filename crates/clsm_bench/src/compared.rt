//! Times of the same work done in two ways, round after round.
use crate::audits::audit_lap;
use crate::batches::batch_lap;
use crate::calls::Lap;
use crate::failure::Failure;
use crate::lines::{Beside, Line, Role, Way};
use crate::merges::merge_lap;
use crate::options::Options;
use crate::series::{map_lap, store_lap};
use crate::session::session_lap;
use crate::sizes::Work;
use crate::times::Times;
use std::alloc::Global;
use std::io;
use std::rt::Clock;
use std::sync::Wait;
use std::thread::Threads;

/// The picoseconds that a call of so many threads together took.
fn picoseconds(lap: &Lap, threads: u32) -> u64 {
    let calls = u64::from(threads) * u64::from(lap.calls);
    let time = lap.end.duration_since(lap.start);
    let all = time.as_nanos().saturating_mul(1_000);
    u64::try_from(all / u128::from(calls.max(1))).unwrap_or(u64::MAX)
}

/// The first row of comma-separated values: what stands in the others.
pub const COLUMNS: &str =
    "line,threads,first_ps,least,greatest,second_ps,least,greatest,percent,least,greatest";

/// The same where the first way is measured alone.
pub const COLUMNS_OF_ONE: &str = "line,threads,first_ps,least,greatest";

/// Does the work once: in the first of its ways, or in the second.
fn lap<R: Threads + Sync + Clock + Wait>(
    rt: &R,
    alloc: Global,
    work: &Work,
    way: Way,
) -> Result<Lap, Failure> {
    let Line { role, beside, .. } = work.line;
    let options = work.options;
    match (role, beside) {
        (Role::Merges(_) | Role::Freeze, _) => merge_lap(rt, alloc, role, options, way),
        (Role::Audit, _) if way == Way::Second => audit_lap(rt, alloc, options.calls / 10),
        (Role::Audit, _) => audit_lap(rt, alloc, options.calls),
        (Role::Batches(_) | Role::HotBatches(_), _) => batch_lap(rt, alloc, work, way),
        (Role::Several(..), _) | (_, Beside::Nothing) if way == Way::Second => {
            map_lap(rt, alloc, work)
        }
        _ if way == Way::Second => store_lap(rt, alloc, work, &Beside::Nothing),
        (_, Beside::Session) => session_lap(rt, alloc, work),
        _ => store_lap(rt, alloc, work, beside),
    }
}

/// Does the work once in the second way, where that is measured.
fn second_lap<R: Threads + Sync + Clock + Wait>(
    rt: &R,
    alloc: Global,
    work: &Work,
) -> Result<Option<Lap>, Failure> {
    if work.options.is_alone {
        return Ok(None);
    }
    Ok(Some(lap(rt, alloc, work, Way::Second)?))
}

/// The times of the work in both ways in turn, as often as the options say.
fn rounds<R: Threads + Sync + Clock + Wait>(
    rt: &R,
    alloc: Global,
    work: &Work,
) -> Result<Times, Failure> {
    let mut times = Times::new(alloc);
    for _ in 0..work.options.repeat {
        let first = picoseconds(&lap(rt, alloc, work, Way::First)?, work.threads);
        times.push_first(first)?;
        if let Some(lap) = second_lap(rt, alloc, work)? {
            times.push_second(first, picoseconds(&lap, work.threads))?;
        }
    }
    Ok(times)
}

/// Prints the times of the line.
fn print_times<R: Print>(
    rt: &R,
    name: &str,
    threads: u32,
    times: &str,
    is_csv: bool,
) -> io::Result<()> {
    if is_csv {
        return println!(rt; "\"{name}\",{threads},{times}");
    }
    println!(rt; "{name} threads {threads} {times}")
}

/// Does the line's work by so many threads in two ways in turn, or in the first alone, as often as
/// the options say and once more before, to warm up. Prints the line: the picoseconds of a call of
/// all threads together, in the first way and in the second, and how many hundredths of the first
/// the second is; as a row of comma-separated values if the options say so. Of no round that is
/// kept it prints the calls alone.
pub fn compare<R: Threads + Sync + Clock + Wait + Print + AllocGlobal>(
    rt: &R,
    line: &Line,
    options: &Options,
    threads: u32,
) -> Result<(), Failure> {
    let alloc = rt.alloc();
    let name = line.name;
    let options = &line.limit(options);
    let work = Work {
        line,
        options,
        threads,
    };
    let first = lap(rt, alloc, &work, Way::First)?.calls;
    let second = second_lap(rt, alloc, &work)?;
    if let (Some(second), 0) = (second, options.repeat) {
        println!(rt;
            "{name} threads {threads} calls {first} and {}",
            second.calls
        )?;
        return Ok(());
    }
    let times = rounds(rt, alloc, &work)?.text(alloc, options.is_csv)?;
    print_times(rt, name, threads, &times, options.is_csv)?;
    Ok(())
}

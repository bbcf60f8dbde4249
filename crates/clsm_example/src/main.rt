//! An example of a program on the store: four threads count words by their lengths.
#![tactic(auto)]

use clsm_session::{Caller, Config, Ended, Job, Place, Refused, SessionCaller, with_store};
use std::process::ExitCode;
use std::sync::Wait;
use std::thread::Threads;

const SIZES: Config = Config {
    cells: 64,
    seats: 4,
    shards: 1,
    run: 1_024,
    patience: 16,
};

/// The words that are counted.
const TEXT: &str = "\
    a store that keeps its rows in sorted runs and its newest rows in memory merges them now and \
    then in one thread while the others read and write and nobody who reads has to wait for it";

/// Counts words by their lengths. Each of four callers takes every fourth word.
struct Count;

impl Job for Count {
    type Answer = Result<(), Refused>;

    fn run<R: Wait, P: Place>(&self, caller: &mut SessionCaller<'_, R, P>) -> Result<(), Refused> {
        let first = caller.number() as usize;
        for word in TEXT.split(' ').skip(first).step_by(4) {
            caller.add(word.len() as u64, 1)?;
        }
        Ok(())
    }
}

/// Counts in a store, and prints what each of its seats then reads.
fn try_example<R: Threads + Sync + Wait + Print + AllocGlobal>(rt: &R) -> Option<()> {
    let Ok(ended) = with_store(rt, rt.alloc(), SIZES, &Count) else {
        return None;
    };
    let Ended {
        store,
        seats,
        answers,
    } = ended;
    println!(rt; "{answers:?}").ok()?;
    for seat in seats {
        println!(rt; "seat {}", seat.number()).ok()?;
        let mut caller = Caller::new(&store, seat);
        let counts = caller.scan(rt.alloc(), 0, u64::MAX).ok()?;
        for (length, count) in counts.rows.as_slice() {
            println!(rt; "{length} letters: {}", count.first()).ok()?;
        }
    }
    Some(())
}

fn main(rt: HostRuntime) -> ExitCode {
    match try_example(&rt) {
        Some(()) => ExitCode::SUCCESS,
        None => ExitCode::FAILURE,
    }
}

//! The line that moves while a run runs.
use crate::board::Board;
use crate::task::Task;
use std::io::{self, Write};
use std::rt::Clock;
use std::sync::Wait;
use std::thread::{self, Threads, join};
use std::time::{Duration, Instant};

/// How many milliseconds the line stands still.
const STILL: u64 = 100;

/// Works while the line moves, if it is asked for. Where no thread can be made, the line comes
/// last, and finds that all is over.
pub fn work_showing<R, E, F, T>(rt: &R, task: &Task, faults: &mut E, work: F) -> T
where
    R: Threads + Sync + Clock + Wait,
    E: Write + Send,
    F: FnOnce() -> T,
    requires { F.pre work }
    ensures { F.post work result }
{
    if !task.shows.progress {
        return work();
    }
    let ((), done) = join(rt, || show_progress(rt, &task.board, faults), work);
    done
}

/// Writes how far the workers are, again and again on one line, until all have ended.
fn show_progress<R: Clock + Wait, E: Write>(rt: &R, board: &Board, faults: &mut E) {
    let Ok(start) = Instant::now(rt) else {
        return;
    };
    for _ in rt.forever() {
        let is_over = board.is_over();
        if write_line(rt, board, start, faults).is_err() {
            return;
        }
        if is_over {
            break;
        }
        thread::sleep(rt, Duration::from_millis(STILL));
    }
    let _ = writeln!(faults, "");
}

fn write_line<R: Clock, E: Write>(
    rt: &R,
    board: &Board,
    start: Instant,
    faults: &mut E,
) -> io::Result<()> {
    let calls = board.calls();
    let merges = board.merges();
    let rate = per_second(calls, start.elapsed(rt)?);
    write!(faults, "\rcalls {calls} calls/s {rate} merges {merges} ")?;
    faults.flush()
}

/// How many of so many are done in a second, if all take so long.
pub fn per_second(count: u64, time: Duration) -> u128 {
    u128::from(count) * 1_000_000_000 / time.as_nanos().max(1)
}

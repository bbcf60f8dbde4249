//! Schedules of the pure machine, and below them rows of calls whose steps are compared with the
//! planner's, played from the standard input. The first line that begins with `%% ` separates them.
//! One program plays both, since each program costs the gate a reading of all that it is linked of,
//! and two compilers.
#![tactic(auto)]

mod schedules;
mod steps;

use crate::schedules::play_schedules;
use crate::steps::play_steps;
use anyhow::Result;
use std::io;

fn main(rt: HostRuntime) -> Result<()> {
    let text = io::read_to_string(rt.alloc(), rt.stdin())?;
    let start = text.find("\n%% ").unwrap_or(text.len());
    let (schedules, steps) = text.split_at(start);
    play_schedules(rt.alloc(), schedules, rt.stdout())?;
    play_steps(&rt, rt.alloc(), steps, rt.stdout())
}

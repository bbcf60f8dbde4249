//! The program `clsm_bench`: measures the store beside a map under a lock, and beside itself. The
//! same work is done in two ways in turn, round after round. Printed are the medians of both times
//! and of their ratio.
#![tactic(auto)]

mod audits;
mod batches;
mod calls;
mod compared;
mod draws;
mod extra;
mod failure;
mod lines;
mod merges;
mod mixes;
mod options;
mod series;
mod session;
mod sizes;
mod stores;
mod sweeper;
mod target;
mod times;

use crate::compared::{COLUMNS, COLUMNS_OF_ONE, compare};
use crate::failure::{Failure, Stop};
use crate::lines::{Line, TABLES};
use crate::options::{Asked, Options};
use clap::error::ErrorKind;
use std::process::ExitCode;
use std::rt::{Clock, Env};
use std::sync::Wait;
use std::thread::Threads;

/// Whether the line is measured for so many threads: for each of its numbers, or for the last alone
/// where little is measured.
fn is_measured(line: &Line, options: &Options, threads: u32) -> bool {
    let (fewest, most) = (line.fewest, line.most);
    if threads != options.threads.unwrap_or(threads) {
        return false;
    }
    threads == most || (options.repeat > 0 && fewest <= threads && threads < most)
}

/// Prints the line for each number of threads for which it is measured, and answers how many these
/// are.
fn measure_line<R: Threads + Sync + Clock + Wait + Print + AllocGlobal>(
    rt: &R,
    line: &Line,
    options: &Options,
) -> Result<u32, Failure> {
    let mut measured: u32 = 0;
    for threads in [1, 2, 4] {
        if is_measured(line, options, threads) {
            compare(rt, line, options, threads)?;
            measured = measured.saturating_add(1);
        }
    }
    Ok(measured)
}

/// Prints the lines that are asked for, or all. Refused where none is measured.
fn measure<R: Threads + Sync + Clock + Wait + Print + AllocGlobal>(
    rt: &R,
    asked: Option<&Asked>,
    options: &Options,
) -> Result<(), Failure> {
    let mut measured: u32 = 0;
    for lines in TABLES {
        for line in lines {
            let is_asked = match asked {
                Some(asked) => asked.has(line),
                None => true,
            };
            if is_asked {
                measured = measured.saturating_add(measure_line(rt, line, options)?);
            }
        }
    }
    if measured == 0 {
        return Err(Failure::NoLine);
    }
    Ok(())
}

/// The words on the command line, the first of which is the program's name.
fn words<R: Env + AllocGlobal>(rt: &R) -> Result<Vec<String>, Failure> {
    let words: Vec<String> = std::env::args(rt)?.collect(rt.alloc())?;
    Ok(words)
}

/// Prints the lines that are asked for, below a row that says what stands in those of
/// comma-separated values.
fn measure_asked<R: Threads + Sync + Clock + Wait + Print + AllocGlobal>(
    rt: &R,
    asked: &Asked,
) -> Result<(), Failure> {
    let options = &asked.options;
    if options.is_csv {
        let columns = match options.is_alone {
            true => COLUMNS_OF_ONE,
            false => COLUMNS,
        };
        println!(rt; "{columns}")?;
    }
    measure(rt, Some(asked), options)
}

/// Does the work that the words on the command line ask for, or a little of each.
fn bench<R: Threads + Sync + Clock + Wait + Env + Print + AllocGlobal>(rt: &R) -> Result<(), Stop> {
    let words = words(rt)?;
    if words.len() < 2 {
        measure(rt, None, &Options::FEW)?;
        return Ok(());
    }
    measure_asked(rt, &Asked::parse(rt.alloc(), &words)?)?;
    Ok(())
}

/// Prints why the words are no command line of the program, or the help that they ask for.
fn tell(rt: &HostRuntime, text: &clap::Error) -> ExitCode {
    if text.kind() == ErrorKind::DisplayHelp {
        let _ = print!(rt; "{text}");
        return ExitCode::SUCCESS;
    }
    let _ = eprint!(rt; "{text}");
    ExitCode::FAILURE
}

fn main(rt: HostRuntime) -> ExitCode {
    match bench(&rt) {
        Ok(()) => ExitCode::SUCCESS,
        Err(Stop::Words(text)) => tell(&rt, &text),
        Err(Stop::Failed(failure)) => {
            let _ = eprintln!(rt; "{failure}");
            ExitCode::FAILURE
        }
    }
}

//! Files of rows. A line of such a file is one of these:
//!
//! - `== NAME` begins a row, and names it by what it shows.
//! - `$ CALL` is what the cases below it call, up to the end of the row: a command line, or
//!   `audit SEATS` for a call of `audit`. A row begins with `clsm script`.
//! - `< INPUT` begins a case. It is played on a new store.
//! - `> OUTPUT` is what the case writes to its output.
//! - `! STATUS FAULTS` is its status, and what it writes to its faults, where the status is not 0.
//!   `*` stands for any text, but not for none.
//! - Two spaces and a text continue the line before.
//! - `# REMARK`, and an empty line.
//!
//! `bytes_of` says which bytes a text writes.

use crate::bytes::bytes_of;
use crate::call::{Played, play};
use anyhow::Result;
use std::alloc::{AllocError, Global};
use std::io::Write;
use std::rt::Clock;
use std::sync::Wait;
use std::thread::Threads;

/// A case, with the texts of its lines.
#[derive(Clone, Copy)]
struct Case<'a> {
    call: &'a str,
    input: &'a str,
    output: &'a str,
    faults: &'a str,
}

impl Case<'_> {
    /// Whether this is what the case is to answer.
    fn is_answered(&self, alloc: Global, played: &Played) -> Result<bool, AllocError> {
        let (status, faults) = self.faults.split_once(' ').unwrap_or((self.faults, ""));
        if status.parse() != Ok(played.status) || bytes_of(alloc, self.output)? != played.output {
            return Ok(false);
        }
        if faults == "*" {
            return Ok(!played.faults.is_empty());
        }
        Ok(bytes_of(alloc, faults)? == played.faults)
    }
}

/// Plays the rows of a file, and writes of each how many of its cases were answered as it says, and how
/// the others were answered.
pub(crate) fn play_file<T: Threads + Sync + Clock + Wait, W: Write>(
    rt: &T,
    alloc: Global,
    text: &str,
    screen: &mut W,
) -> Result<()> {
    let text = text.replace(alloc, "\n  ", " ")?;
    for row in text.split("\n== ").skip(1) {
        let (name, lines) = row.split_once('\n').unwrap_or((row, ""));
        let cases = cases_of(alloc, lines)?;
        play_row(rt, alloc, name, &cases, screen)?;
    }
    Ok(())
}

/// The cases that the lines of a row say.
fn cases_of<'a>(alloc: Global, lines: &'a str) -> Result<Vec<Case<'a>>, AllocError> {
    let mut call = "clsm script";
    let mut cases = Vec::new(alloc);
    for line in lines.lines() {
        let (sign, text) = line.split_once(' ').unwrap_or((line, ""));
        match sign {
            "$" => call = text,
            "<" => cases.push(Case {
                call,
                input: text,
                output: "",
                faults: "0",
            })?,
            ">" => {
                if let Some(case) = cases.last_mut() {
                    case.output = text;
                }
            }
            "!" => {
                if let Some(case) = cases.last_mut() {
                    case.faults = text;
                }
            }
            _ => {}
        }
    }
    Ok(cases)
}

/// Plays the cases of a row.
fn play_row<T: Threads + Sync + Clock + Wait, W: Write>(
    rt: &T,
    alloc: Global,
    name: &str,
    cases: &[Case<'_>],
    screen: &mut W,
) -> Result<()> {
    for (place, case) in cases.iter().enumerate() {
        let input = bytes_of(alloc, case.input)?;
        let played = play(rt, alloc, case.call, &input)?;
        if !case.is_answered(alloc, &played)? {
            writeln!(screen, "{name}, case {place}: status {}", played.status)?;
            screen.write_all(&played.output)?;
            screen.write_all(&played.faults)?;
        }
    }
    writeln!(screen, "{name}: {} played", cases.len())?;
    Ok(())
}

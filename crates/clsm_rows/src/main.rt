//! Command lines, scripts and audits with their answers, played in this process: what they print is
//! compared byte by byte with what their rows say. `file.rt` says how rows are written.
#![tactic(auto)]

mod bytes;
mod call;
mod file;

use crate::file::play_file;
use anyhow::Result;
use std::fs;

/// What stands in the rows' folder: the rows of the specification, and inputs that its words allow or
/// forbid.
const FILES: [&str; 4] = ["rows.txt", "lines.txt", "commands.txt", "words.txt"];

fn main(rt: HostRuntime) -> Result<()> {
    for name in FILES {
        let text = fs::read_to_string(&rt, name)?;
        play_file(&rt, rt.alloc(), &text, &mut rt.stdout())?;
    }
    Ok(())
}

//! The program `clsm`: a concurrent log-structured merge map, its workload and its audit.
#![tactic(auto)]

use clsm_command::{command, refuse, words};
use clsm_text::Streams;
use std::process::ExitCode;

fn main(rt: HostRuntime) -> ExitCode {
    let status = match words(&rt) {
        Ok(words) => {
            let streams = Streams {
                input: rt.stdin(),
                output: rt.stdout(),
                faults: rt.stderr(),
            };
            command(&rt, rt.alloc(), &words, streams).status
        }
        Err(refusal) => refuse(refusal, &mut rt.stdout(), rt.stderr()),
    };
    ExitCode::from(status)
}

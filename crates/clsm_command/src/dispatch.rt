//! What the command line asks for is done.
ghost use Rattle.std.specs.Prelude.{◌≡◌, ◌⊎◌, ◌≤◌, map};
ghost use Rattle.clsm_command.specs.Answers.{IsInRange};
ghost use Rattle.clsm_command.specs.Doing.{AsksExploration, AsksRun, HasSoundSizes, IsAskedFor, IsDone, IsFaulty, IsHelp, audit_sizes};
ghost use Rattle.clsm_command.specs.declared.asked.Options.TheVariants.{Run, Script};
ghost use Rattle.clsm_command.specs.declared.refusal.Refusal.TheVariants.{Help, Memory};
ghost use Rattle.clsm_text.specs.Failure.{status_of};
ghost use Rattle.clap.specs.declared.error.Error.{Error};

use crate::asked::{AuditOptions, ExploreOptions, Options, RunOptions};
use crate::command_line::options;
use crate::refusal::Refusal;
use clsm_explore::{Exploration, Shows, explore_scripts};
use clsm_model::Config;
use clsm_script::{Setting, script};
use clsm_text::{AskedAudit, Failure, Streams, audit_lines};
use clsm_workload::{AskedRun, Load, run_printed};
use std::alloc::Global;
use std::convert::AsStr;
use std::io::{self, Read, Write};
use std::rt::Clock;
use std::sync::Wait;
use std::thread::Threads;

/// The entries that a run of level 1 has room for in an exploration.
const EXPLORED_RUN: usize = 4;

/// How the program ended: its exit status, and its output.
#[derive(Drop)]
pub struct Ended<W> {
    pub status: u8,
    pub output: W,
}

/// Does what the words of a command line ask for, the first of which is the program's name. Answers
/// the exit status, and the output. `script` and `audit` read the input. What is asked for is
/// written to the output, help too; why the program does not end well is written to the faults.
///
/// The status is 0 where all was done; 1 for words that are refused, a bad line, or a failed read
/// or write; 2 for a fault that an audit or an exploration found; 3 for a refused opening, if
/// memory runs out, for too many worlds, or where an exploration is stuck.
pub fn command<T, S, R, W, E>(
    rt: &T,
    alloc: Global,
    words: &[S],
    streams: Streams<R, W, E>,
) -> Ended<W>
where
    T: Threads + Sync + Clock + Wait,
    S: AsStr,
    R: Read + Drop,
    W: Write + Drop,
    E: Write + Send + Drop,
    ensures status { result.status ≤ 3 }
    ensures done { result.status ≡ 0 → IsHelp (map S.text words.entry.now)
        ⊎ IsAskedFor (map S.text words.entry.now) (λ options.
        IsDone options (R.remaining streams.input) (W.contents streams.output) (W.contents result.output)) }
    ensures fault { result.status ≡ 2 → IsAskedFor (map S.text words.entry.now) (λ options.
        IsFaulty options (R.remaining streams.input) (W.contents streams.output) (W.contents result.output)) }
    ensures refused { IsAskedFor (map S.text words.entry.now) (λ options. ¬ HasSoundSizes options) → result.status ≡ 3 }
{
    match options(alloc, words) {
        Ok(options) => obey(rt, alloc, options, streams),
        Err(refusal) => {
            let Streams {
                mut output,
                faults,
                ..
            } = streams;
            let status = refuse(refusal, &mut output, faults);
            Ended { status, output }
        }
    }
}

/// Does what the options ask for.
#[tactic(auto, using(crate::proofs::Statuses::at_most, crate::proofs::Sizes::audit_refused, crate::proofs::Sizes::explored_refused))]
fn obey<T, R, W, E>(rt: &T, alloc: Global, options: Options, streams: Streams<R, W, E>) -> Ended<W>
where
    T: Threads + Sync + Clock + Wait,
    R: Read + Drop,
    W: Write + Drop,
    E: Write + Send + Drop,
    requires range { IsInRange options }
    ensures status { result.status ≤ 3 }
    ensures done { result.status ≡ 0 →
        IsDone options (R.remaining streams.input) (W.contents streams.output) (W.contents result.output) }
    ensures fault { result.status ≡ 2 →
        IsFaulty options (R.remaining streams.input) (W.contents streams.output) (W.contents result.output) }
    ensures refused { ¬ HasSoundSizes options → result.status ≡ 3 }
{
    let Streams {
        input,
        mut output,
        faults,
    } = streams;
    let status = match options {
        Options::Script(config) => {
            let setting = Setting { rt, alloc, config };
            return play(&setting, input, output, faults);
        }
        Options::Run(options) => run_printed(rt, alloc, &asked_run(&options), &mut output, faults),
        Options::Audit(options) => {
            audit_lines(alloc, asked_audit(&options), input, &mut output, faults)
        }
        Options::Explore(options) => {
            explore_scripts(alloc, &asked_exploration(&options), &mut output, faults)
        }
    };
    Ended { status, output }
}

/// Plays the script.
#[tactic(auto, using(crate::proofs::Statuses::no_fault, crate::proofs::Statuses::script_most))]
fn play<T, R, W, E>(setting: &Setting<'_, T>, input: R, mut output: W, faults: E) -> Ended<W>
where
    T: Wait,
    R: Read + Drop,
    W: Write + Drop,
    E: Write + Drop,
    ensures status { result.status ≤ 3 }
    ensures done { result.status ≡ 0 →
        IsDone (Script setting.now.config) (R.remaining input) (W.contents output) (W.contents result.output) }
    ensures faultless { ¬ (result.status ≡ 2) }
    ensures refused { ¬ HasSoundSizes (Script setting.now.config) → result.status ≡ 3 }
{
    let status = script(setting, input, &mut output, faults);
    Ended { status, output }
}

/// The run that options ask for.
fn asked_run(options: &RunOptions) -> AskedRun
    requires { IsInRange (Run options.now) }
    ensures { AsksRun options.now result }
{
    let load = Load {
        ops: options.ops as u32,
        keys: options.keys,
        seed: options.seed,
        batch: options.batch,
        many: options.many,
        swap: options.swap,
    };
    AskedRun {
        config: options.config,
        load,
        waits: options.wait,
        shows: options.shows,
    }
}

/// What an audit is asked for. Of the sizes of the store it takes only the first two.
fn asked_audit(options: &AuditOptions) -> AskedAudit
    ensures config { result.config ≡ audit_sizes options.now }
    ensures order { result.order ≡ options.now.order }
    ensures history { result.history ≡ options.now.history }
{
    let config = Config {
        cells: options.cells,
        seats: options.seats,
        shards: 1,
        run: 4,
        patience: 0,
    };
    AskedAudit {
        config,
        order: options.order,
        history: options.history,
    }
}

/// The exploration that options ask for.
fn asked_exploration<'a>(options: &'a ExploreOptions) -> Exploration<'a>
    ensures { AsksExploration options.now result }
{
    let config = Config {
        cells: options.cells,
        seats: options.scripts.len(),
        shards: options.shards,
        run: EXPLORED_RUN,
        patience: options.patience,
    };
    let shows = Shows {
        answers: options.answers,
        schedule: options.schedule,
        count: options.count,
        progress: options.progress,
    };
    Exploration {
        config,
        scripts: &options.scripts,
        merge: options.merge,
        limit: options.limit,
        shows,
    }
}

/// Writes why words were refused to the faults, or the help that they ask for to the output.
/// Answers the exit status, as `command` does.
pub fn refuse<W: Write, E: Write + Drop>(refusal: Refusal, output: &mut W, mut faults: E) -> u8
    ensures status { (result ≡ 0) ⊎ ((result ≡ 1) ⊎ (result ≡ 3)) }
    ensures help { result ≡ 0 → (error : Error) × (refusal ≡ Help error) }
    ensures memory { refusal ≡ Memory → result ≡ 3 }
{
    match refusal {
        Refusal::Help(text) => match help(output, &text) {
            Ok(()) => 0,
            Err(error) => fail(Failure::from(error), &mut faults),
        },
        Refusal::Memory => fail(Failure::Memory, &mut faults),
        refusal => {
            let _ = write!(faults, "{refusal}");
            let _ = faults.flush();
            1
        }
    }
}

fn help<W: Write>(output: &mut W, text: &clap::Error) -> io::Result<()> {
    write!(output, "{text}")?;
    output.flush()
}

fn fail<E: Write>(failure: Failure, faults: &mut E) -> u8
    ensures { result ≡ status_of failure }
{
    let _ = failure.report(faults);
    failure.status()
}

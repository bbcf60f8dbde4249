//! `clsm script`: the lines of an input are played on a new store, and answered one by one.
ghost use Rattle.std.specs.Prelude.{◌≡◌, ◌≢◌, [], Err, IfSome, OnOk, IfErr};
ghost use Rattle.std.specs.Io.Buffered.{reader_remaining};
ghost use Rattle.clsm_store_audit.specs.Settled.{HaveWholeHistory};
ghost use Rattle.clsm_script.specs.Lines.{EndsPlay, IsPlayedOn, outputs_of, stage_of};
ghost use Rattle.clsm_script.specs.Play.{PrintsCall};
ghost use Rattle.clsm_script.specs.Script.{IsScript, IsStatus, StopsPlay, StopsScript};
ghost use Rattle.clsm_script.specs.Session.{IsFaulted, IsSession};
ghost use Rattle.clsm_text.specs.Failure.{IsOutside};
ghost use Rattle.clsm_text.specs.declared.failure.Failure.TheVariants.{Fault};
ghost use Rattle.clsm_model.specs.Config.{IsSound};

use crate::command::Command;
use crate::line::parse_line;
use crate::plain::call_at_hand;
use crate::session::Session;
use crate::writing::{write_answer, write_call_answer};
use clsm_store::{Call, Config, Merger, Opened, Pace, Phase, Store, open};
use clsm_text::{Failure, read_line};
use std::alloc::Global;
use std::io::{BufReader, Read, Write};
use std::sync::Wait;

/// What a script is played with: the runtime that it waits by, the allocator, and the sizes of its
/// store.
#[derive(Clone, Copy)]
pub struct Setting<'a, T> {
    pub rt: &'a T,
    pub alloc: Global,
    pub config: Config,
}

/// What calls are made with.
#[derive(Drop)]
struct Host<'a, T, P: Pace> {
    rt: &'a T,
    alloc: Global,
    store: &'a Store<P>,
}

/// Plays the commands of an input, one a line, on a new store of these sizes, and writes each
/// answer to the output as a line of its own, as `Answer` shows it, and nothing else. Each answer is
/// written at once and flushed before the next line is read; a write that fails ends the script.
/// Where a script is not played to its end, a line on the faults says why: `bad line L` or `device`,
/// with status 1, or `refused N SIZE` or `no memory`, with status 3. The status of a script that is
/// played to its end is 0. A write to the faults that fails changes no status.
///
/// No audit finds a fault. One that did would end the script with status 2, and lines on the faults
/// would say why: what an explanation of `clsm_audit` says.
pub fn script<T, R, W, E>(setting: &Setting<'_, T>, input: R, output: &mut W, mut faults: E) -> u8
where
    T: Wait,
    R: Read + Drop,
    W: Write,
    E: Write + Drop,
    ensures status { IsStatus result }
    ensures refused { ¬ IsSound setting.now.config → result ≡ 3 }
    ensures read { result ≡ 0 → IfSome (R.remaining input) IsScript }
    ensures played { result ≡ 0 → IfSome (R.remaining input)
        (IsPlayedOn setting.now.config (outputs_of (W.contents output.old) (W.contents output.new))) }
{
    match play_script(setting, input, output, &mut faults) {
        Ok(()) => 0,
        Err(failure) => {
            let _ = failure.report(&mut faults);
            failure.status()
        }
    }
}

fn play_script<T, R, W, E>(
    setting: &Setting<'_, T>,
    input: R,
    output: &mut W,
    faults: &mut E,
) -> Result<(), Failure>
where
    T: Wait,
    R: Read + Drop,
    W: Write,
    E: Write,
    ensures opened { OnOk result (IsSound setting.now.config) }
    ensures read { OnOk result (IfSome (R.remaining input) IsScript) }
    ensures played { OnOk result (IfSome (R.remaining input)
        (IsPlayedOn setting.now.config (outputs_of (W.contents output.old) (W.contents output.new)))) }
    ensures stopped { IfErr result (StopsScript setting.now.config (R.remaining input)) }
{
    let Setting { alloc, config, .. } = *setting;
    let Opened {
        store,
        seats,
        merger,
    } = open(alloc, config)?;
    let Ok(mut reader) = BufReader::new(alloc, input) else {
        return Err(Failure::Memory);
    };
    let mut session = Session::new(alloc, config, seats);
    let phase = Phase::Clean(merger);
    let merger = Merger {
        store: &store,
        phase,
    };
    let played = play_lines(setting, &mut reader, output, &mut session, merger);
    if let Err(Failure::Fault) = played {
        session.write_reason(alloc, faults);
    }
    settle_seats(&store, session, &played);
    played
}

/// Settles the seats of a script that ended so, unless the world or a bad line stopped it. No audit
/// found a fault.
fn settle_seats<P: Pace>(store: &Store<P>, session: Session, ended: &Result<(), Failure>)
    requires ends { OnOk ended.now (IsSession store.now session) }
    requires fault { ended.now ≡ Err Fault → IsFaulted store.now session }
    ensures whole { OnOk ended.now (HaveWholeHistory session.seats.items) }
    ensures faultless { ended.now ≢ Err Fault }
{
    match ended {
        Ok(()) => session.settle(store),
        Err(Failure::Fault) => session.settle(store),
        Err(_) => {}
    }
}

/// Plays the lines that are left of the input.
fn play_lines<T: Wait, R: Read, W: Write, P: Pace + Drop>(
    setting: &Setting<'_, T>,
    reader: &mut BufReader<R>,
    output: &mut W,
    session: &mut Session,
    merger: Merger<'_, P>,
) -> Result<(), Failure>
    requires { IsSession merger.store.now session.old }
    ensures read { OnOk result (IfSome (reader_remaining R.remaining reader.old) IsScript) }
    ensures played { OnOk result (IfSome (reader_remaining R.remaining reader.old)
        (EndsPlay (stage_of session.old merger.entry.phase []) session.new
        (outputs_of (W.contents output.old) (W.contents output.new)))) }
    ensures session { OnOk result (IsSession merger.entry.store.now session.new) }
    ensures stopped { IfErr result (StopsPlay merger.entry.store.now (reader_remaining R.remaining reader.old) session.new) }
{
    let Setting { rt, alloc, .. } = *setting;
    let Merger { store, mut phase } = merger;
    let host = Host { rt, alloc, store };
    let mut line = Vec::new(alloc);
    let mut shown = Vec::new(alloc);
    for number in 1..u64::MAX {
        if let Some(call) = call_at_hand(reader) {
            play_call(&host, session, output, &mut shown, call)?;
            continue;
        }
        if !read_line(reader, &mut line)? {
            return Ok(());
        }
        let command = match parse_line(alloc, &line) {
            Ok(Some(command)) => command,
            Ok(None) => continue,
            Err(error) => return Err(error.at(number)),
        };
        // Most commands are calls, which leave the merger where it is.
        let command = match command {
            Command::Call(call) => {
                play_call(&host, session, output, &mut shown, call)?;
                continue;
            }
            command => command,
        };
        let (next, answer) = command.play(rt, alloc, store, session, phase)?;
        phase = next;
        write_answer(output, &mut shown, &answer)?;
    }
    Err(Failure::Device)
}

/// Makes a call by the seat in use, and writes what it is answered, by a room for one line.
fn play_call<T: Wait, W: Write, P: Pace + Drop>(
    host: &Host<'_, T, P>,
    session: &mut Session,
    output: &mut W,
    shown: &mut Vec<u8>,
    call: Call,
) -> Result<(), Failure>
    requires { IsSession host.now.store.now session.old }
    ensures makes { OnOk result (PrintsCall call session.old session.new (W.contents output.old) (W.contents output.new)) }
    ensures session { OnOk result (IsSession host.now.store.now session.new) }
    ensures failed { IfErr result IsOutside }
{
    let Host { rt, alloc, store } = *host;
    let answer = session.call(rt, alloc, store, &call)?;
    write_call_answer(output, shown, &answer)?;
    Ok(())
}

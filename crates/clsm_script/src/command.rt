//! The commands of scripts: from words to a command, and from a command to calls of the store.
ghost use Rattle.std.specs.Prelude.{◌≡◌, ◌∷◌, [], IfOk, OnOk};

use crate::answer::Answer;
use crate::call::parse_call;
use crate::session::Session;
use clsm_store::{Call, Merger, Pace, Phase, Store};
use clsm_text::parse_number;
use std::alloc::{AllocError, Global};
use std::sync::Wait;

/// A command of a script.
#[derive(Debug, Drop)]
pub enum Command {
    /// A call of the seat in use: `put K V`, `remove K`, `try K V`, `add K D`, `claim K V`, `get
    /// K`, `snap`, `close`, `getat K`, `scan LO HI`, `page FROM HI MAX` or `batch K=V K=none ..`.
    Call(Call),
    /// `seat S`: takes the seat with this number into use.
    Seat { number: u64 },
    /// `meet S`: lets the seat in use meet the one with this number.
    Meet { number: u64 },
    /// `audit`: audits all calls of the script so far.
    Audit,
    /// `freeze`: freezes the current epoch, so that writers go on in the next.
    Freeze,
    /// `merge`: merges the frozen epoch into a sorted run.
    Merge,
    /// `reclaim`: gives the retired component up, so that its cells are free.
    Reclaim,
}

impl Command {
    ghost use Rattle.clsm_script.specs.Command.{IsCall, Says};
    ghost use Rattle.clsm_text.specs.Found.{Finds};
    ghost use Rattle.clsm_text.specs.Line.{texts_of};
    ghost use Rattle.clsm_script.specs.Session.{IsSession};
    ghost use Rattle.clsm_store.specs.Phase.{merger_in};
    ghost use Rattle.clsm_script.specs.Play.{Plays, Turns};

    /// The command that the words of a line say; `None` if they say no command. Refused if memory
    /// runs out.
    pub fn parse(alloc: Global, words: &[&str]) -> Result<Option<Command>, AllocError>
        ensures { IfOk result (Finds (λ command. Says command (texts_of words.now))) }
    {
        if let Some(call) = parse_call(alloc, words)? {
            return Ok(Some(Command::Call(call)));
        }
        Ok(match *words {
            [name] => Command::of_name(name),
            [name, number] => Command::of_number(name, number),
            _ => None,
        })
    }

    /// The command with this name alone, which is no call.
    fn of_name(name: &str) -> Option<Command>
        ensures { Finds (λ command. (¬ IsCall command) × Says command (name.now ∷ [])) result }
    {
        match name {
            "audit" => Some(Command::Audit),
            "freeze" => Some(Command::Freeze),
            "merge" => Some(Command::Merge),
            "reclaim" => Some(Command::Reclaim),
            _ => None,
        }
    }

    /// The command with this name and a number, which is no call.
    fn of_number(name: &str, number: &str) -> Option<Command>
        ensures { Finds (λ command. (¬ IsCall command) × Says command (name.now ∷ number.now ∷ []))
            result }
    {
        let number = parse_number(number)?;
        match name {
            "seat" => Some(Command::Seat { number }),
            "meet" => Some(Command::Meet { number }),
            _ => None,
        }
    }

    /// Plays the command on a store, by its seats or by its merger, and answers what the store
    /// answered. A command of the merger in another phase than its own does nothing, and is
    /// answered so. Refused if memory runs out: a call was made then, and its record is lost.
    pub fn play<P: Pace + Drop, R: Wait>(
        self,
        rt: &R,
        alloc: Global,
        store: &Store<P>,
        session: &mut Session,
        phase: Phase,
    ) -> Result<(Phase, Answer), AllocError>
        requires session { IsSession store.now session.old }
        requires merger { (merger_in phase).store ≡ store.now }
        ensures plays { IfOk result (λ done. Plays self session.old session.new done.1) }
        ensures turns { IfOk result (λ done. Turns self phase done.0 done.1) }
        ensures session { OnOk result (IsSession store.now session.new) }
        ensures merger { IfOk result (λ done. (merger_in done.0).store ≡ store.now) }
    {
        let answer = match self {
            Command::Call(call) => Answer::Call(session.call(rt, alloc, store, &call)?),
            Command::Seat { number } => Answer::Seat(session.take_seat(number)),
            Command::Meet { number } => Answer::Meet(session.meet(store, number)),
            Command::Audit => Answer::Audit(session.audit(alloc)),
            Command::Freeze => {
                let (merger, answer) = Merger { store, phase }.freeze(rt);
                return Ok((merger.phase, Answer::Freeze(answer)));
            }
            Command::Merge => {
                let (merger, answer) = Merger { store, phase }.merge();
                return Ok((merger.phase, Answer::Merge(answer)));
            }
            Command::Reclaim => {
                let (merger, answer) = Merger { store, phase }.reclaim();
                return Ok((merger.phase, Answer::Reclaim(answer)));
            }
        };
        Ok((phase, answer))
    }
}

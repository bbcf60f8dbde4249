//! A worker: a thread that takes the turns of its workload by its seat, and keeps the records of
//! what was answered.
ghost use Rattle.std.specs.Prelude.{◌≡◌, [], IfErr, OnOk};
ghost use Rattle.clsm_store_calls.specs.Seats.{IsSameSeat, Refuses};
ghost use Rattle.clsm_workload.specs.Calls.{TakesNext, TakesSome, TakesTurns, Works, after_turn, workload_of};

use crate::kind::Kind;
use crate::player::Player;
use crate::taking::{MOST_RECORDS, take_turn};
use crate::task::Task;
use crate::watch::{Note, Watch};
use crate::workload::Workload;
use clsm_model::{CallRecord, Memory};
use clsm_store::Seat;
use std::alloc::Global;
use std::rt::Clock;
use std::sync::Wait;

/// A worker at its work.
#[derive(Drop)]
struct Worker {
    workload: Workload,
    records: Vec<CallRecord>,
    watch: Watch,
}

/// What a worker made: the records of what was answered, and its notes of all turns.
#[derive(Drop)]
pub struct Made {
    pub records: Vec<CallRecord>,
    pub notes: Vec<Note>,
    /// Whether it took all its turns: not where it, or another worker, was refused memory.
    pub ended: Result<(), Memory>,
}

/// What a worker gives back: its seat, and what it made by it.
#[derive(Drop)]
pub struct Worked {
    pub seat: Seat,
    pub made: Made,
}

/// Takes the turns of the seat's workload, as many as the load asks for, and answers the records of
/// what was answered. Where it is refused memory, or another worker was, it ends there, and the
/// board says so.
pub fn work<S: Player, R: Clock + Wait>(rt: &R, alloc: Global, player: &mut S, task: &Task) -> Made
    ensures { Works task.now.load (S.seat player.old) (S.seat player.new) result }
{
    let mut worker = Worker::new(alloc, player.number(), task);
    let ended = worker.make_all(rt, alloc, player, task);
    if ended.is_err() {
        task.board.starve();
    }
    let Worker { records, watch, .. } = worker;
    Made {
        records,
        notes: watch.notes,
        ended,
    }
}

impl Worker {
    /// The worker with this number, before its first turn.
    fn new(alloc: Global, number: u32, task: &Task) -> Worker
        ensures workload { result.workload ≡ workload_of task.now.load number }
        ensures records { result.records.items ≡ [] }
    {
        Worker {
            workload: Workload::new(&task.load, number),
            records: Vec::new(alloc),
            watch: Watch::new(alloc, task.shows.stats || task.shows.clock),
        }
    }

    /// Takes as many turns as the load asks for. Refused if memory runs out, here or at another
    /// worker.
    fn make_all<S: Player, R: Clock + Wait>(
        &mut self,
        rt: &R,
        alloc: Global,
        player: &mut S,
        task: &Task,
    ) -> Result<(), Memory>
        requires none { self.old.records.items ≡ [] }
        ensures some { TakesSome task.now.load.ops self.old.workload (S.seat player.old) (S.seat player.new) self.new.records.items }
        ensures all { OnOk result (TakesTurns task.now.load.ops self.old.workload (S.seat player.old) (S.seat player.new) self.new.records.items) }
        ensures same { IsSameSeat (S.seat player.old) (S.seat player.new) }
    {
        for taken in 0..task.load.ops {
            if task.board.is_starved() {
                return Err(Memory);
            }
            self.step(rt, alloc, player)?;
            if task.shows.progress {
                task.board.count_call();
            }
        }
        Ok(())
    }

    /// Takes the next turn, and keeps the records of what was answered. Refused if memory runs out:
    /// no call was answered then.
    #[tactic(auto, using(crate::proofs::Calls::refuses_self, crate::proofs::Calls::same_self))]
    fn step<S: Player, R: Clock + Wait>(
        &mut self,
        rt: &R,
        alloc: Global,
        player: &mut S,
    ) -> Result<(), Memory>
        ensures taken { OnOk result (TakesNext self.old.workload (S.seat player.old) (S.seat player.new) self.old.records.items self.new.records.items) }
        ensures workload { OnOk result (self.new.workload ≡ after_turn self.old.workload) }
        ensures same { IsSameSeat (S.seat player.old) (S.seat player.new) }
        ensures refused { IfErr result (λ refusal. Refuses (S.seat player.old) (S.seat player.new)) }
        ensures kept { IfErr result (λ refusal. self.new.records.items ≡ self.old.records.items) }
    {
        self.records.reserve(MOST_RECORDS)?;
        self.watch.make_room()?;
        let turn = self.workload.next(player.has_snapshot());
        let kind = Kind::of(&turn);
        let begun = self.watch.begin(rt);
        let before = self.records.len();
        let outcome = take_turn(rt, alloc, player, turn, &mut self.records)?;
        let records = self.records.len().saturating_sub(before);
        let note = Note {
            kind,
            outcome,
            records,
            moments: None,
        };
        self.watch.note(rt, begun, note);
        Ok(())
    }
}

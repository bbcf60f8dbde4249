//! A session: its opening, its threads and its end.
ghost use Rattle.std.specs.Prelude.{◌≡◌, All, IfErr, IfOk, vec_len};
ghost use Rattle.clsm_store.specs.Headline.{IsWholeHistory, longest_past};
ghost use Rattle.clsm_store.specs.Phase.{merger_in};
ghost use Rattle.clsm_store_calls.specs.Seats.{HasSizes};
ghost use Rattle.clsm_session.specs.Ended.{AreAllSeats, AreDone, StopsSession, StopsWork};
ghost use Rattle.clsm_session.specs.Places.{AreBack, HasPlace, IsBack};

use crate::board::Board;
use crate::caller::SessionCaller;
use crate::job::{Job, Place};
use crate::merging::merge_beside;
use crate::refusal::SessionError;
use crate::worked::{Worked, part};
use clsm_store::{Caller, Clean, Config, Free, Opened, Seat, Store, open};
use std::alloc::{AllocError, Global};
use std::marker::Brand;
use std::sync::Wait;
use std::thread::{self, Threads};

/// What a session hands back: its store, all seats of the store, settled and in order, and what
/// each caller answered, in the same order. By `Caller::new(&ended.store, seat)` a seat reads on;
/// writes find room only as far as the last epoch has some.
#[derive(Drop)]
pub struct Ended<A> {
    pub store: Store<Free>,
    pub seats: Vec<Seat>,
    pub answers: Vec<A>,
}

/// Opens a store of these sizes, lets each of its callers do the job in a thread of its own beside
/// a thread for the merger, waits for all of them and settles the seats. All that the callers did
/// is then one history: each answered write stands in it once, at its own time, each read answered
/// as a plain map of the writes below its time, no batch is seen in part, no caller's times run
/// back, and no other write stands in it. What the job says of its answers holds of the seats.
///
/// The merger sleeps until half of an epoch is used or a caller has found it full. Refused with
/// `Open` where the store is not opened, with `NoThread` where no thread can be made for the
/// merger, both before any caller is called, and with `Memory` if memory runs out.
#[tactic(auto, using(crate::proofs::Places::stops_session))]
pub fn with_store<R: Threads + Sync + Wait, J: Job + Sync>(
    rt: &R,
    alloc: Global,
    config: Config,
    job: &J,
) -> Result<Ended<J::Answer>, SessionError>
    ensures sizes { IfOk result (λ ended. HasSizes ended.store config) }
    ensures seats { IfOk result (λ ended. AreAllSeats ended.store config.seats ended.seats.items) }
    ensures of_store { IfOk result (λ ended. All (λ seat. seat.store ≡ ended.store) ended.seats.items) }
    ensures answers { IfOk result (λ ended. vec_len ended.answers ≡ config.seats) }
    ensures done { IfOk result (λ ended. AreDone J.does ended.store ended.seats.items ended.answers.items) }
    ensures whole { IfOk result (λ ended. IsWholeHistory ended.seats.items (longest_past ended.seats.items)) }
    ensures stopped { IfErr result (StopsSession config) }
{
    let opened = match open(alloc, config) {
        Ok(opened) => opened,
        Err(error) => return Err(SessionError::Open(error)),
    };
    let Opened {
        store,
        seats,
        merger,
    } = opened;
    let board = Board::new(config.cells as u64);
    let stage = Stage {
        rt,
        alloc,
        store: &store,
        board: &board,
    };
    let worked = work_beside(&stage, job, seats, merger)?;
    let Ok((seats, answers)) = part(alloc, worked) else {
        return Err(SessionError::Memory);
    };
    let seats = store.settle(seats);
    Ok(Ended {
        store,
        seats,
        answers,
    })
}

/// What the threads of a session share.
#[derive(Drop)]
struct Stage<'a, R: Threads + Sync + Wait> {
    rt: &'a R,
    alloc: Global,
    store: &'a Store<Free>,
    board: &'a Board,
    ghost cells: { board.now.cells ≡ store.now.layout.cells },
}

/// Lets each seat's caller do the job while the merger merges, and answers what they gave back when
/// all have ended. Refused with `NoThread` or `Memory`.
fn work_beside<R: Threads + Sync + Wait, J: Job + Sync>(
    stage: &Stage<'_, R>,
    job: &J,
    seats: Vec<Seat>,
    merger: Clean,
) -> Result<Vec<Worked<J::Answer>>, SessionError>
    requires seats { All (λ seat. seat.store ≡ stage.now.store.now) seats.items }
    requires merger { merger.merger.store ≡ stage.now.store.now }
    ensures back { IfOk result (λ worked. AreBack J.does seats.items worked.items) }
    ensures stopped { IfErr result StopsWork }
{
    thread::scope(
        thread::scope_env(),
        stage.rt,
        |scope| -> Result<Vec<Worked<J::Answer>>, SessionError>
            requires { (All (λ seat. seat.store ≡ stage.now.store.now) seats.items) × (merger.merger.store ≡ stage.now.store.now) }
            ensures { (IfOk result (λ worked. AreBack J.does seats.items worked.items)) × (IfErr result StopsWork) }
        {
            let merging = scope.spawn(
                move || -> ()
                    requires { merger.merger.store ≡ stage.now.store.now }
                { merge_beside(stage.rt, stage.store, merger, stage.board) },
            );
            if merging.is_err() {
                return Err(SessionError::NoThread);
            }
            let worked = work_all(stage, job, seats);
            stage.board.end(stage.rt);
            match worked {
                Ok(worked) => Ok(worked),
                Err(_) => Err(SessionError::Memory),
            }
        },
    )
}

/// Lets each seat's caller do the job in a thread of its own. Refused if memory runs out.
fn work_all<R: Threads + Sync + Wait, J: Job + Sync>(
    stage: &Stage<'_, R>,
    job: &J,
    seats: Vec<Seat>,
) -> Result<Vec<Worked<J::Answer>>, AllocError>
    requires { All (λ seat. seat.store ≡ stage.now.store.now) seats.items }
    ensures { IfOk result (λ worked. AreBack J.does seats.items worked.items) }
{
    thread::map_vec(
        stage.rt,
        seats,
        &|seat: Seat| -> Worked<J::Answer>
            requires { seat.store ≡ stage.now.store.now }
            ensures { IsBack J.does seat result }
        { work(stage, job, seat) },
    )
}

/// Does the job by this seat, and gives the seat back.
fn work<R: Threads + Sync + Wait, J: Job>(
    stage: &Stage<'_, R>,
    job: &J,
    seat: Seat,
) -> Worked<J::Answer>
    requires { seat.store ≡ stage.now.store.now }
    ensures { IsBack J.does seat result }
{
    let caller = Caller::new(stage.store, seat);
    work_at::<R, J, Brand>(stage, job, caller)
}

/// Does the job by a seat that has this place, which it keeps.
fn work_at<R: Threads + Sync + Wait, J: Job, P: Place>(
    stage: &Stage<'_, R>,
    job: &J,
    caller: Caller<'_, Free>,
) -> Worked<J::Answer>
    requires place { HasPlace P.store P.number caller.seat }
    requires store { caller.seat.store ≡ stage.now.store.now }
    ensures place { HasPlace P.store P.number result.seat }
    ensures does { J.does caller.entry.seat result.seat result.answer }
{
    let mut caller: SessionCaller<'_, R, P> = SessionCaller::new(
        stage.rt,
        stage.alloc,
        stage.board,
        caller,
    );
    let answer = job.run(&mut caller);
    Worked {
        seat: caller.end(),
        answer,
    }
}

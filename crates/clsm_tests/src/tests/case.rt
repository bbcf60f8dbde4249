//! Cases: what actors play on a store of their own.
use super::act::Step;
use super::actor::Actor;
use super::gate::{Gates, Hold, NOWHERE};
use clsm_audit::audit;
use clsm_store::{Bound, Config, Opened, open_paced};
use std::alloc::Global;
use std::process::Abort;
use std::sync::Wait;
use std::thread;
use std::thread::Threads;

/// What actors play beside one another: the first one's acts, the second one's, and so on. Those
/// behind the last one rest.
pub(super) type Phase = &'static [&'static [Step]];

/// The acts of an actor that rests.
pub(super) const NONE: &[Step] = &[];

/// A store of these sizes whose gates hold so; what is played on it, phase after phase, and then
/// round after round. The merger is the first actor's. The audit holds all calls against a plain
/// map.
#[derive(Clone, Copy)]
pub(super) struct Case {
    pub(super) name: &'static str,
    pub(super) config: Config,
    pub(super) gates: [Hold; 2],
    pub(super) phases: &'static [Phase],
    pub(super) rounds: u64,
    pub(super) round: &'static [Phase],
}

pub(super) const FOUR_CELLS: Config = Config {
    cells: 4,
    seats: 3,
    shards: 2,
    run: 64,
    patience: 8,
};

/// Many cells, and a reader waits for no writer.
pub(super) const MANY_CELLS: Config = Config {
    cells: 64,
    patience: 0,
    ..FOUR_CELLS
};

/// A case in which nobody is held and nothing is played.
pub(super) const PLAIN: Case = Case {
    name: "",
    config: FOUR_CELLS,
    gates: [NOWHERE, NOWHERE],
    phases: &[],
    rounds: 0,
    round: &[],
};

/// The case of this name in which the first actor makes these steps, and the others rest.
macro_rules! alone {
    ($name:expr, $steps:expr) => {
        Case {
            name: $name,
            phases: &[&[$steps]],
            ..PLAIN
        }
    };
}

pub(super) use alone;

/// The actors of these callers. The first one has the merger.
fn actors_of<'a>(rt: &impl Abort, alloc: Global, bound: Bound<'a, Gates>) -> Vec<Actor<'a>> {
    let Bound { callers, merger } = bound;
    let mut merger = Some(merger);
    let mut actors = Vec::with_capacity(alloc, callers.len()).expect(rt, "memory");
    for caller in callers {
        let actor = Actor {
            caller,
            merger: merger.take(),
            records: Vec::new(alloc),
            word: 0,
            refused: false,
        };
        actors.push(actor).expect(rt, "memory");
    }
    actors
}

/// Plays the phases, each actor in a thread of its own.
fn play_all<R: Abort + Threads + Wait + Sync>(
    rt: &R,
    alloc: Global,
    case: &str,
    actors: &mut [Actor],
    phases: &[Phase],
) {
    for phase in phases {
        thread::for_each_mut(
            rt,
            actors,
            8,
            &|place, actor| match phase.get(place) {
                Some(steps) => actor.play(rt, alloc, case, steps),
                None => (),
            },
        );
    }
}

/// Plays the case.
pub(super) fn check<R: Abort + Threads + Wait + Sync>(rt: &R, alloc: Global, case: &Case) {
    let [first, second] = &case.gates;
    let gates = Gates::new(first, second);
    let Opened {
        store,
        seats,
        merger,
    } = open_paced(alloc, case.config, gates).expect(rt, "memory");
    let bound = store.bind(alloc, seats, merger).expect(rt, "memory");
    let mut actors = actors_of(rt, alloc, bound);
    play_all(rt, alloc, case.name, &mut actors, case.phases);
    for _ in 0..case.rounds {
        play_all(rt, alloc, case.name, &mut actors, case.round);
    }
    audit_all(rt, alloc, case, actors);
}

/// All calls are answered as one plain map would.
fn audit_all(rt: &impl Abort, alloc: Global, case: &Case, actors: Vec<Actor>) {
    let mut records = Vec::new(alloc);
    for actor in actors {
        let mut more = actor.records;
        records.append(&mut more).expect(rt, "memory");
    }
    assert_eq!(rt;
        audit(alloc, &case.config, &records),
        Ok(()),
        "{}",
        case.name
    );
}

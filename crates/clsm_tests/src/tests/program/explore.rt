//! What explorations of small schedules find, where the calls take their steps in wrong orders.
use clsm_explore::{
    AnyDeal, Deal, ExploreError, MergeStage, Place, Planner, Stage, Task, Untold, explore_with,
};
use clsm_law::Layout;
use clsm_model::{Config, Value};
use std::alloc::Global;
use std::process::Abort;
use std::test::Fail;

/// What goes wrong.
#[derive(Clone, Copy, PartialEq, Eq, Debug)]
enum Wrong {
    Nothing,
    /// A get answers without deciding the empty cells below its time.
    Unsettled,
    /// A put is inserted and decided before it links.
    Unlinked,
    /// A put decides before it is inserted.
    Uninserted,
    /// The second put looks for its place behind the first one's cell, which it never looked at.
    Unsought,
    /// A change writes without a look for writes since its read.
    Unlooked,
    /// A snapshot is timed at its note.
    TimedAtNote,
    /// A merge takes the end of the epoch for its floor, without its round of looks.
    Unfloored,
    /// A reclaim leaves out the first seat.
    SeatLeftOut,
}

impl Planner for Wrong {
    fn caller(&self, place: Place) -> Place {
        match (self, place.stage) {
            (Wrong::Unsettled, Stage::Front) => place.at(Stage::Answer),
            (Wrong::Unlinked, Stage::Link) => place.at(Stage::Insert(0)),
            (Wrong::Uninserted, Stage::Insert(_)) => place.at(Stage::Decide),
            (Wrong::Unsought, Stage::Insert(0)) if place.drawn == Some(1) => {
                place.at(Stage::Insert(1))
            }
            (Wrong::Unlooked, Stage::Front) if place.drawn.is_some() => place.at(Stage::Fill),
            (Wrong::TimedAtNote, Stage::ReadClock) => place.at(Stage::Front),
            _ => place,
        }
    }

    fn merger(&self, stage: MergeStage) -> MergeStage {
        match (self, stage) {
            (Wrong::Unfloored, MergeStage::Floor) => MergeStage::Write(4),
            (Wrong::SeatLeftOut, MergeStage::Quiet(0)) => MergeStage::Quiet(1),
            _ => stage,
        }
    }
}

/// Four cells, two callers, three chains.
const SMALL: Config = Config {
    cells: 4,
    seats: 2,
    shards: 2,
    run: 8,
    patience: 0,
};

/// What goes wrong, the two calls of the first caller, that of the second one, and the most worlds.
type Order = (Wrong, Deal, Deal, Deal, usize);

/// The wrong order is found: a step is not open. With nothing wrong there are more worlds than the
/// limit.
fn check_order(rt: &impl Abort, alloc: Global, layout: &Layout, order: Order) -> Result<(), Fail> {
    let (wrong, first, then, second, limit) = order;
    let (first, then) = (AnyDeal::Plain(first), AnyDeal::Plain(then));
    let second = AnyDeal::Plain(second);
    let deals = vec![in alloc; vec![in alloc; first, then]?, vec![in alloc; second]?]?;
    assert!(rt; deals.len() as u64 <= layout.seats, "a seat for each list");
    let task = Task {
        alloc,
        layout,
        deals: &deals,
    };
    let merge = matches!(wrong, Wrong::Unfloored | Wrong::SeatLeftOut);
    let is_found = match explore_with(&wrong, &task, merge, limit, &mut Untold) {
        Err(ExploreError::TooMany) => wrong == Wrong::Nothing,
        Err(ExploreError::Refused(_)) => wrong != Wrong::Nothing,
        _ => false,
    };
    assert!(rt; is_found, "{wrong:?}");
    Ok(())
}

/// Each wrong order is found. A close with no snapshot is skipped.
#[test]
fn wrong_orders_of_calls(rt: HostRuntime) -> Result<(), Fail> {
    let layout = Layout::new(SMALL).expect(&rt, "sizes in their ranges");
    let value = Value::new(&[1]).expect(&rt, "one word");
    let (key, other) = (1, 2);
    let put = || Deal::Put { key, value };
    let another = Deal::Put { key: other, value };
    let add = Deal::Add { key, by: 1 };
    for order in [
        (Wrong::Nothing, put(), Deal::Close, Deal::Close, 1),
        (
            Wrong::Unsettled,
            put(),
            Deal::Close,
            Deal::Get { key },
            10_000,
        ),
        (Wrong::Unlinked, put(), Deal::Close, Deal::Close, 10_000),
        (Wrong::Uninserted, put(), Deal::Close, Deal::Close, 10_000),
        (Wrong::Unsought, another, put(), Deal::Close, 10_000),
        (Wrong::Unlooked, add, Deal::Close, put(), 10_000),
        (Wrong::TimedAtNote, put(), Deal::Close, Deal::Snap, 10_000),
        (Wrong::Unfloored, put(), put(), Deal::Close, 10_000),
        (
            Wrong::SeatLeftOut,
            Deal::Close,
            Deal::Close,
            Deal::Close,
            10_000,
        ),
    ] {
        check_order(&rt, rt.alloc(), &layout, order)?;
    }
    Ok(())
}

//! The view of a seat at its beginning.
ghost use Rattle.std.specs.Prelude.{◌≡◌, IfOk};
ghost use Rattle.clsm_law.specs.Views.{idle};

use clsm_law::{Items, Layout, Mode, SnapshotState, View};
use clsm_model::Members;
use std::alloc::{AllocError, Global};

/// The view of a seat that has done nothing yet. Refused if memory runs out.
pub fn idle(alloc: Global, layout: &Layout) -> Result<View, AllocError>
    ensures { IfOk result (λ view. view ≡ idle layout.now) }
{
    let mut fresh_heads = Items::new(alloc);
    fresh_heads.blank(2 * layout.chains as usize)?;
    let mut words = Items::new(alloc);
    words.blank(8)?;
    Ok(View {
        mode: Mode::Free,
        fresh_lock: None,
        fresh_clock: None,
        fresh_heads,
        hold_limit: None,
        hold_clock: None,
        hold_first: None,
        drawn: None,
        key: None,
        length: None,
        words,
        next: None,
        linked: false,
        order_next: None,
        inserted: false,
        fresh_link: None,
        met: 0,
        low: 0,
        high: 0,
        staged: Members::new(Vec::new(alloc)),
        committed: false,
        pin: 0,
        pinned: false,
        held: None,
        clock: None,
        pin_clock: None,
        snapshot: SnapshotState::Absent,
        reached: 0,
        past: 0,
        due: 0,
        calls: Items::new(alloc),
        entries: 0,
        busy: 0,
        raced: 0,
        overtaken: 0,
        gave_up: 0,
        cancelled: 0,
        waited: None,
        hasty: 0,
        clock_looks: 0,
        limit_looks: 0,
    })
}

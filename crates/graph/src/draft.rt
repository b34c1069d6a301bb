ghost use Rattle.std.specs.Prelude.{◌≡◌, ℕ, ◌+◌, ◌-◌, ◌<◌, ◌≤◌, length, take};
ghost use Rattle.graph.specs.Content.{Apart, BlankPast, EndsIn, NoMilestone, OwnersIn};

use crate::event::Event;
use crate::relation::Relation;
use crate::release::Release;
use arrayvec::ArrayVec;

/// A graph as far as its declarations have come: it may still lack events.
#[derive(Drop)]
pub struct Draft {
    pub(crate) stations: u8,
    pub(crate) release: Release,
    pub(crate) events: ArrayVec<Event, 64>,
    // An array with a count, since `records` shows the zero records past the last relation too.
    pub(crate) table: [Relation; 512],
    pub(crate) relations: usize,
    ghost sized: { (0 < stations) × (stations ≤ 8) × (length events.items ≤ 64) × (relations ≤ 512) },
    ghost owners: { OwnersIn stations events.items },
    ghost ends: { EndsIn (length events.items) (take relations table) },
    ghost apart: { Apart (take relations table) },
    ghost milestones: { NoMilestone release (take relations table) },
    ghost blank: { BlankPast table relations },
    ghost long: { length table ≡ 512 },
}

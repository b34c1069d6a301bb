ghost use Rattle.std.specs.Prelude.{◌≡◌, ℕ, ◌<◌, ◌≤◌, length, take, nat_lt};
ghost use Rattle.graph.specs.Content.{BlankPast, Sound};
ghost use Rattle.graph.specs.Held.{content, held};

use crate::draft::Draft;
use crate::event::Event;
use crate::graph::Graph;
use crate::relation::Relation;
use crate::release::Release;

impl Graph {
    pub fn stations(&self) -> u8
        ensures { result ≡ (content self.now).stations }
    {
        self.draft.stations
    }

    pub fn release(&self) -> Release
        ensures { result ≡ (content self.now).release }
    {
        self.draft.release
    }

    /// The events in the order of their numbers.
    pub fn events(&self) -> &[Event]
        ensures { result.now ≡ (content self.now).events }
    {
        self.draft.events.as_slice()
    }

    /// The relations in the order of their declaration.
    pub fn relations(&self) -> &[Relation]
        ensures { result.now ≡ (content self.now).relations }
    {
        let draft = &self.draft;
        &draft.table[..draft.relations]
    }

    /// All 512 records: the relations in their order, and then zero records.
    pub fn records(&self) -> &[Relation]
        ensures long { length result.now ≡ 512 }
        ensures front { take (length (content self.now).relations) result.now ≡ (content self.now).relations }
        ensures zero { BlankPast result.now (length (content self.now).relations) }
    {
        &self.draft.table
    }
}

impl Draft {
    pub fn has_relations(&self) -> bool
        ensures { result ≡ nat_lt 0 (length (held self.now).relations) }
    {
        self.relations > 0
    }
}

/// What every graph keeps: no call has to be told so.
pub fn every_graph_keeps(graph: &Graph)
    ensures sound { Sound (content graph.now) }
    ensures some { 0 < length (content graph.now).events }
{
    let _ = graph;
}

ghost use Rattle.std.specs.Prelude.{◌≡◌, ℕ, length};
ghost use Rattle.events.specs.Marks.{marks};
ghost use Rattle.events.specs.Members.{member};
ghost use Rattle.graph.specs.Held.{content};
ghost use Rattle.graph.specs.declared.kind.Kind.{Kind as AnyKind};
ghost use Rattle.graph.specs.declared.kind.Kind.TheVariants.{Milestone};
ghost use Rattle.rules.specs.Masked.{linked};
ghost use Rattle.rules.specs.Laws.{lawful-graph, stationed-graph, sized-graph, owner-few};
ghost use Rattle.rules.specs.Releases.{ReleasesAgree};
ghost use Rattle.rules.specs.Semantics.{holding, lowest, meant, read, related, unmet};
ghost use Rattle.rules.specs.Words.{Rightful};

use crate::decision::Decision;
use crate::masks::Masks;
use crate::rule::Rule;
use events::{EventSet, Marking};
use graph::graph::Graph;
use graph::kind::Kind;
use graph::release::Release;

/// The rule of a release over a graph.
#[derive(Drop)]
pub struct ReleaseRule {
    graph: Graph,
    release: Release,
    // All relations of the graph, whatever the release: `milestones` leaves out what the release does not read.
    masks: Masks,
    ghost ties: { ((kind : AnyKind) (a b : ℕ) → linked masks kind a b ≡ related (content graph).relations kind a b) },
}

impl ReleaseRule {
    /// The rule of that release over the graph, whose relations it compiles to masks.
    pub fn new(graph: Graph, release: Release) -> ReleaseRule
        ensures of { result.graph ≡ graph }
        ensures release { result.release ≡ release }
        ensures right { Rightful release (content graph) (meant result.release (content result.graph)) }
        ensures masks { (kind : AnyKind) (a b : ℕ) → linked result.masks kind a b ≡ related (content graph).relations kind a b }
    {
        let masks = Masks::of(&graph);
        ReleaseRule {
            graph,
            release,
            masks,
        }
    }

    /// The rule of the graph's own release over the graph.
    pub fn of(graph: Graph) -> ReleaseRule
        ensures of { meant result.release (content result.graph) ≡ meant (content graph).release (content graph) }
        ensures right { Rightful (content graph).release (content graph) (meant result.release (content result.graph)) }
        ensures masks { (kind : AnyKind) (a b : ℕ) → linked result.masks kind a b ≡ related (content graph).relations kind a b }
    {
        let release = graph.release();
        ReleaseRule::new(graph, release)
    }

    // The milestone sources of the event that the release reads, which in release 4 are none.
    fn milestones(&self, event: u8) -> EventSet
        ensures { (k : ℕ) → member result.bits k ≡ read self.now.release (content self.now.graph).relations Milestone k event }
    {
        if self.release.allows(Kind::Milestone) {
            self.masks.milestones.row(event)
        } else {
            EventSet::empty()
        }
    }

    // The lowest condition source of the event that is included and not executed.
    // A function beside the next: what differs is the test, which each contract names.
    fn unmet_condition(&self, event: u8, marking: &Marking) -> Option<u8>
        ensures { result ≡ lowest (unmet (read self.now.release (content self.now.graph).relations) event (marks marking.now)) (length (content self.now.graph).events) }
    {
        let included = self.masks.conditions.row(event).common(marking.included);
        included.minus(marking.executed).lowest()
    }

    // The lowest milestone source of the event that is included and pending.
    fn holding_milestone(&self, event: u8, marking: &Marking) -> Option<u8>
        ensures { result ≡ lowest (holding (read self.now.release (content self.now.graph).relations) event (marks marking.now)) (length (content self.now.graph).events) }
    {
        let included = self.milestones(event).common(marking.included);
        included.common(marking.pending).lowest()
    }
}

impl Rule for ReleaseRule {
    ghost meaning = { λ r. meant r.release (content r.graph) };

    ghost lawful = { λ r. lawful-graph r.graph r.release };

    ghost stationed = { λ r. stationed-graph r.graph };

    ghost sized = { λ r. sized-graph r.graph };

    ghost owned = { λ r. owner-few r.graph };

    fn stations(&self) -> u8 {
        self.graph.stations()
    }

    fn events(&self) -> u8 {
        self.graph.events().len() as u8
    }

    // An event that the graph lacks has owner 0.
    fn owner(&self, event: u8) -> u8 {
        let owned = self.graph.events().get(event as usize);
        owned.map_or(0, |event| event.owner)
    }

    fn start(&self) -> Marking {
        let mut start = Marking::blank();
        for (number, event) in self.graph.events().iter().enumerate() {
            start = start.with_marks(number as u8, event.marks);
        }
        start
    }

    fn locks(&self, event: u8) -> EventSet {
        EventSet::first(self.events())
            .common(EventSet::empty().with(event))
            .union(self.masks.conditions.row(event))
            .union(self.masks.responses.row(event))
            .union(self.masks.includes.row(event))
            .union(self.masks.excludes.row(event))
            .union(self.milestones(event))
    }

    fn decide(&self, event: u8, marking: &Marking) -> Decision {
        // Both are looked up first, so that whether an event is accepted takes no branch.
        let unmet = self.unmet_condition(event, marking);
        let holding = self.holding_milestone(event, marking);
        if !marking.included.has(event) {
            return Decision::Excluded(event);
        }
        match (unmet, holding) {
            (Some(source), _) => Decision::Unmet(source),
            (None, Some(source)) => Decision::Held(source),
            (None, None) => Decision::Accepted,
        }
    }

    fn perform(&self, event: u8, marking: &Marking) -> Marking {
        if event >= self.events() {
            return *marking;
        }
        let pending = marking.pending.without(event);
        let included = marking.included.union(self.masks.includes.row(event));
        Marking {
            executed: marking.executed.with(event),
            pending: pending.union(self.masks.responses.row(event)),
            included: included.minus(self.masks.excludes.row(event)),
        }
    }
}

/// The law that joins the releases, for proofs to cite.
pub fn releases_agree_without_milestones()
    ensures { ReleasesAgree }
{}

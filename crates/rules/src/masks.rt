ghost use Rattle.std.specs.Prelude.{◌≡◌, ℕ, false, ◌&&◌, ◌||◌, nat_lt};
ghost use Rattle.graph.specs.Held.{content};
ghost use Rattle.graph.specs.declared.kind.Kind.{Kind as AnyKind};
ghost use Rattle.rules.specs.Masked.{linked};
ghost use Rattle.rules.specs.Semantics.{is, related};

use crate::rows::Rows;
use graph::graph::Graph;
use graph::kind::Kind;
use graph::relation::Relation;

// The relations of a graph as sets of events: the sources of conditions and milestones by target, the targets of the
// others by source.
#[derive(Drop)]
pub(crate) struct Masks {
    pub(crate) conditions: Rows,
    pub(crate) milestones: Rows,
    pub(crate) responses: Rows,
    pub(crate) includes: Rows,
    pub(crate) excludes: Rows,
}

impl Masks {
    // The masks of no relation.
    pub(crate) fn new() -> Masks
        ensures { (kind : AnyKind) (a b : ℕ) → linked result kind a b ≡ false }
    {
        Masks {
            conditions: Rows::new(),
            milestones: Rows::new(),
            responses: Rows::new(),
            includes: Rows::new(),
            excludes: Rows::new(),
        }
    }

    // Adds one relation, if a set has room for both its events.
    pub(crate) fn add(&mut self, relation: Relation)
        ensures { (kind : AnyKind) (a b : ℕ) → linked self.new kind a b ≡ (linked self.old kind a b || (is kind a b relation && (nat_lt a 64 && nat_lt b 64))) }
    {
        match relation.kind {
            Kind::Condition => self.conditions.add(relation.to, relation.from),
            Kind::Milestone => self.milestones.add(relation.to, relation.from),
            Kind::Response => self.responses.add(relation.from, relation.to),
            Kind::Include => self.includes.add(relation.from, relation.to),
            Kind::Exclude => self.excludes.add(relation.from, relation.to),
        }
    }

    // The masks of exactly the graph's relations.
    pub(crate) fn of(graph: &Graph) -> Masks
        ensures { (kind : AnyKind) (a b : ℕ) → linked result kind a b ≡ related (content graph.now).relations kind a b }
    {
        let mut masks = Masks::new();
        for relation in graph.relations() {
            masks.add(*relation);
        }
        masks
    }
}

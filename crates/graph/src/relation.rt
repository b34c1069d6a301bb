ghost use Rattle.graph.specs.Content.{clash};
ghost use Rattle.std.specs.Prelude.{◌≡◌};

use crate::kind::Kind;

/// A relation of a kind from one event to another.
#[derive(Clone, Copy)]
pub struct Relation {
    pub kind: Kind,
    pub from: u8,
    pub to: u8,
}

impl Relation {
    /// Whether the two cannot both stand in a graph.
    pub(crate) fn clashes(self, other: Relation) -> bool
        ensures { result ≡ clash self other }
    {
        self.from == other.from && self.to == other.to && self.kind.is_opposed(other.kind)
    }
}

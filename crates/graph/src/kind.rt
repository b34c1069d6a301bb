ghost use Rattle.graph.specs.Kinds.{kind_number, opposed};
ghost use Rattle.std.specs.Prelude.{◌≡◌};

/// What a relation means for its two events, with the number of the kind.
#[derive(Clone, Copy, PartialEq, Eq)]
pub enum Kind {
    Condition = 1,
    Milestone = 2,
    Response = 3,
    Include = 4,
    Exclude = 5,
}

impl Kind {
    /// Whether relations of the two kinds cannot both stand on one pair of events.
    pub(crate) fn is_opposed(self, other: Kind) -> bool
        ensures { result ≡ opposed self other }
    {
        match (self, other) {
            (Kind::Include, Kind::Exclude) | (Kind::Exclude, Kind::Include) => true,
            _ => self == other,
        }
    }
}

/// The kind's number, 1 to 5.
impl From<Kind> for u8 {
    ghost from_gives = { λ kind number. number ≡ kind_number kind };

    fn from(kind: Kind) -> u8 {
        kind as u8
    }
}

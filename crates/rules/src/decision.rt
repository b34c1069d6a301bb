ghost use Rattle.rules.specs.Answers.{accepted, answer, reply};
ghost use Rattle.std.specs.Prelude.{◌≡◌, Err};

/// What a rule decides of an event. A refusal names the event that stands in the way.
// No `Result`: a refusal is the answer that tables and sites hand on, and no caller stops at it.
#[derive(Clone, Copy)]
pub enum Decision {
    /// The event may be done.
    Accepted,
    /// The event itself is not included.
    Excluded(u8),
    /// A condition source is included and not executed.
    Unmet(u8),
    /// A milestone source is included and pending.
    Held(u8),
}

impl Decision {
    /// Whether the event may be done.
    pub fn is_accepted(self) -> bool
        ensures { result ≡ accepted self }
    {
        matches!(self, Decision::Accepted)
    }

    /// The event that the answer to a request of `event` names.
    pub fn named(self, event: u8) -> u8
        ensures { result ≡ (answer self event).1 }
    {
        match self {
            Decision::Accepted => event,
            Decision::Excluded(named) | Decision::Unmet(named) | Decision::Held(named) => named,
        }
    }
}

/// The number of the answer: 0 for an accepted event, else why it is refused.
impl From<Decision> for u8 {
    ghost from_gives = { λ decision number. number ≡ (answer decision 0).0 };

    fn from(decision: Decision) -> u8 {
        match decision {
            Decision::Accepted => 0,
            Decision::Excluded(_) => 21,
            Decision::Unmet(_) => 22,
            Decision::Held(_) => 23,
        }
    }
}

/// The refusal of an event that the rule lacks.
#[derive(Clone, Copy)]
pub struct UnknownEvent;

/// The number of the refusal.
// The number that a site's refusal of it has too.
impl From<UnknownEvent> for u8 {
    ghost from_gives = { λ refusal number. number ≡ (reply (Err refusal) 0).0 };

    fn from(_: UnknownEvent) -> u8 {
        9
    }
}

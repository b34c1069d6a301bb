// The marks of all events.
ghost use Rattle.std.specs.Prelude.{◌≡◌, ℕ, ◌&&◌, if◌then◌else◌};
ghost use Rattle.events.specs.Marks.{marks, unmarked};
ghost use Rattle.events.specs.Members.{member, named};

use crate::marks::Marks;
use crate::set::EventSet;

/// The events with each mark.
#[derive(Clone, Copy, Default)]
pub struct Marking {
    pub executed: EventSet,
    pub pending: EventSet,
    pub included: EventSet,
}

impl Marking {
    /// No mark anywhere.
    pub fn blank() -> Marking
        ensures { (k : ℕ) → marks result k ≡ unmarked }
    {
        Marking::default()
    }

    pub fn marks(self, event: u8) -> Marks
        ensures { result ≡ marks self event }
    {
        Marks {
            executed: self.executed.has(event),
            pending: self.pending.has(event),
            included: self.included.has(event),
        }
    }

    pub fn with_marks(self, event: u8, given: Marks) -> Marking
        ensures { (k : ℕ) → marks result k ≡ (if named 64 event k then given else marks self k) }
    {
        Marking {
            executed: self.executed.put(event, given.executed),
            pending: self.pending.put(event, given.pending),
            included: self.included.put(event, given.included),
        }
    }

    /// The marks of `other` on the events of `on`, and of this marking elsewhere.
    pub fn overlaid(self, other: Marking, on: EventSet) -> Marking
        ensures { (k : ℕ) → marks result k ≡ (if member on.bits k then marks other k else marks self k) }
    {
        Marking {
            executed: self.executed.overlaid(other.executed, on),
            pending: self.pending.overlaid(other.pending, on),
            included: self.included.overlaid(other.included, on),
        }
    }

    /// The marks of the events of `to`, and none elsewhere.
    pub fn restricted(self, to: EventSet) -> Marking
        ensures { (k : ℕ) → marks result k ≡ (if member to.bits k then marks self k else unmarked) }
    {
        Marking {
            executed: self.executed.common(to),
            pending: self.pending.common(to),
            included: self.included.common(to),
        }
    }

    /// The events that are pending and included.
    pub fn owed(self) -> EventSet
        ensures { (k : ℕ) → member result.bits k ≡ ((marks self k).pending && (marks self k).included) }
    {
        self.pending.common(self.included)
    }
}

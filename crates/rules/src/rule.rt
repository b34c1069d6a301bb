ghost use Rattle.std.specs.Prelude.{◌≡◌, ℕ, ◌<◌, ◌≤◌};
ghost use Rattle.events.specs.Marks.{marks};
ghost use Rattle.events.specs.Members.{member};
ghost use Rattle.rules.specs.Rule.{Lawful, Meaning};

use crate::decision::Decision;
use events::{EventSet, Marking};

/// A rule decides requests. Every call takes every event number, also of an event that the rule lacks.
pub trait Rule {
    ghost meaning: { Self → Meaning };

    /// How many stations there are.
    fn stations(&self) -> u8
        ensures is { result ≡ (meaning self.now).stations }
        ensures few { result ≤ 8 };

    /// How many events there are.
    fn events(&self) -> u8
        ensures is { result ≡ (meaning self.now).events }
        ensures few { result ≤ 64 };

    /// The station that owns the event.
    fn owner(&self, event: u8) -> u8
        ensures is { result ≡ (meaning self.now).owner event }
        ensures few { result < 8 };

    /// The marking at the start.
    fn start(&self) -> Marking
        ensures { (k : ℕ) → marks result k ≡ (meaning self.now).start k };

    /// The lock set of the event: what its decision reads and its effect writes.
    fn locks(&self, event: u8) -> EventSet
        ensures { (k : ℕ) → member result.bits k ≡ (meaning self.now).locks event k };

    /// What the rule answers to a request of the event.
    fn decide(&self, event: u8, marking: &Marking) -> Decision
        ensures { result ≡ (meaning self.now).decides event (marks marking.now) };

    /// The marking after doing the event.
    fn perform(&self, event: u8, marking: &Marking) -> Marking
        ensures { (k : ℕ) → marks result k ≡ (meaning self.now).does event (marks marking.now) k };

    ghost lawful: { (r : Self) → Lawful (meaning r) };

    ghost stationed: { (r : Self) → (1 ≤ (meaning r).stations) × ((meaning r).stations ≤ 8) };

    ghost sized: { (r : Self) → (1 ≤ (meaning r).events) × ((meaning r).events ≤ 64) };

    ghost owned: { (r : Self) (e : ℕ) → (meaning r).owner e < 8 };
}

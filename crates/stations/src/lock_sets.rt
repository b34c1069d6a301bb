// The lock sets of events.
ghost use Rattle.std.specs.Prelude.{◌≡◌, ℕ, ◌<◌, ◌&&◌, IfSome, nat_lt};
ghost use Rattle.events.specs.Members.{member};
ghost use Rattle.protocol.specs.Station.{concerned, missing};

use events::{EventSet, StationSet};
use rules::rule::Rule;

// The events of the lock set of the event.
fn lock_set<R: Rule>(rule: &R, event: u8) -> EventSet
    ensures { (k : ℕ) → member result.bits k ≡ ((R.Rule.meaning rule.now).locks event k && nat_lt k (R.Rule.meaning rule.now).events) }
{
    rule.locks(event).common(EventSet::first(rule.events()))
}

// The owners of the locks of the event.
pub(crate) fn stations_concerned<R: Rule>(rule: &R, event: u8) -> StationSet
    ensures { (k : ℕ) → member result.bits k ≡ concerned (R.Rule.meaning rule.now) event k }
{
    let mut owners = StationSet::empty();
    for lock in lock_set(rule, event).members() {
        owners = owners.with(rule.owner(lock));
    }
    owners
}

// The lowest lock of the event that is not had.
pub(crate) fn next_lock<R: Rule>(rule: &R, event: u8, had: EventSet) -> Option<u8>
    ensures is { result ≡ missing (R.Rule.meaning rule.now) event (member had.bits) }
    ensures few { IfSome result (λ lock. lock < 64) }
{
    lock_set(rule, event).minus(had).lowest()
}

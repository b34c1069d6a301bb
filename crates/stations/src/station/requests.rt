ghost use Rattle.std.specs.Prelude.{◌≡◌, ℕ, ◌&&◌, OnErr, if◌then◌else◌};
ghost use Rattle.events.specs.Marks.{marks};
ghost use Rattle.events.specs.Members.{member};
ghost use Rattle.protocol.specs.Station.{begins, fresh, is_resting, owns};
ghost use Rattle.rules.specs.Semantics.{lowest};
ghost use Rattle.stations.specs.Shows.{blank, shows};
ghost use Rattle.stations.specs.Steps.{Begins};

use super::{Lock, State, Station};
use crate::lock_sets::next_lock;
use crate::outbox::Outbox;
use crate::role::Role;
use events::{EventSet, Marking, Marks, StationSet};
use lines::note::Note;
use protocol::delivery::StrayMessage;
use rules::rule::Rule;

impl Station {
    /// A station before the start: no marks, no request, every lock free.
    pub fn blank() -> Station
        ensures { shows result ≡ shows blank }
    {
        let free = Lock {
            holder: None,
            waiting: StationSet::empty(),
        };
        Station {
            marking: Marking::blank(),
            state: State::Resting,
            locks: [free; 64],
        }
    }

    /// The station at the start: the start marks of its own events, no request, every lock free.
    pub fn fresh<R: Rule>(role: &Role<R>) -> Station
        ensures { shows result ≡ fresh (R.Rule.meaning role.now.rule.now) role.now.me }
    {
        let mut station = Station::blank();
        station.marking = role.rule.start().restricted(role.events());
        station
    }

    /// Whether no request is open.
    pub fn is_resting(&self) -> bool
        ensures { result ≡ is_resting (shows self.now).request }
    {
        matches!(self.state, State::Resting)
    }

    /// Opens a request of the event, and asks for its lowest lock. Where there is none, nothing changes.
    pub fn begin<R: Rule>(&mut self, rule: &R, event: u8) -> Result<Outbox, StrayMessage>
        ensures begins { Begins self.new result (begins (R.Rule.meaning rule.now) (shows self.old) event (lowest ((R.Rule.meaning rule.now).locks event) (R.Rule.meaning rule.now).events)) }
        ensures stray { OnErr result (shows self.new ≡ shows self.old) }
    {
        let had = EventSet::empty();
        let lock = next_lock(rule, event, had).ok_or(StrayMessage)?;
        let seen = Marking::blank();
        self.state = State::Asking { event, had, seen };
        Ok(Outbox::single(rule.owner(lock), Note::Ask { event: lock }))
    }

    /// The marks that the station has of the event.
    pub fn marks(&self, event: u8) -> Marks
        ensures { result ≡ (shows self.now).marks event }
    {
        self.marking.marks(event)
    }

    /// The marking with the marks of the station's own events laid over it.
    pub fn overlay_own<R: Rule>(&self, role: &Role<R>, marking: Marking) -> Marking
        ensures { (k : ℕ) → marks result k ≡ (if owns (R.Rule.meaning role.now.rule.now) role.now.me k then (shows self.now).marks k else marks marking k) }
    {
        marking.overlaid(self.marking, role.events())
    }

    /// The station's own events that are pending and included.
    pub fn own_owed<R: Rule>(&self, role: &Role<R>) -> EventSet
        ensures { (k : ℕ) → member result.bits k ≡ (owns (R.Rule.meaning role.now.rule.now) role.now.me k && (((shows self.now).marks k).pending && ((shows self.now).marks k).included)) }
    {
        self.marking.owed().common(role.events())
    }
}

ghost use Rattle.std.specs.Prelude.{◌≡◌, ℕ};
ghost use Rattle.events.specs.Members.{member};
ghost use Rattle.protocol.specs.Station.{owns};

use crate::station_id::StationId;
use events::EventSet;
use rules::rule::Rule;

/// A station's role in a rule: it owns some of the events.
#[derive(Drop)]
pub struct Role<'r, R: Rule> {
    pub rule: &'r R,
    pub me: StationId,
}

impl<'r, R: Rule> Role<'r, R> {
    /// Whether the station owns the event.
    pub fn owns(&self, event: u8) -> bool
        ensures { result ≡ owns (R.Rule.meaning self.now.rule.now) self.now.me event }
    {
        event < self.rule.events() && self.rule.owner(event) == u8::from(self.me)
    }

    /// The events that the station owns.
    pub fn events(&self) -> EventSet
        ensures { (k : ℕ) → member result.bits k ≡ owns (R.Rule.meaning self.now.rule.now) self.now.me k }
    {
        let me = u8::from(self.me);
        EventSet::first(self.rule.events()).filter(|event| self.rule.owner(event) == me)
    }
}

ghost use Rattle.std.specs.Prelude.{◌≡◌, ℕ, ◌<◌};
ghost use Rattle.lines.specs.Lists.{Lists};
ghost use Rattle.events.specs.Marks.{marks};
ghost use Rattle.protocol.specs.Turns.{gathered};
ghost use Rattle.protocol.specs.declared.call.Call.TheVariants.{Tally, WorkList as AskWorkList};
ghost use Rattle.site.specs.Outcomes.{listing, tallying};
ghost use Rattle.site.specs.Served.{CallServed};
ghost use Rattle.site.specs.Statuses.{site_of};

use crate::carries::known;
use crate::pairs::lowest_pair;
use crate::site::{Site, WorkList};
use events::{EventSet, Marking};
use lines::line::Line;
use protocol::refusal::Refusal;
use rules::rule::Rule;
use stations::role::Role;
use stations::station::Station;
use tables::table::enabled_events;

// Each event's marks, as its owner has them.
fn gathered<R: Rule>(rule: &R, stations: &[Station; 8]) -> Marking
    ensures { (W : Lists) (k : ℕ) → k < (R.Rule.meaning rule.now).events → marks result k ≡ gathered (R.Rule.meaning rule.now) (site_of W stations.now) k }
{
    let mut marking = Marking::blank();
    for event in 0..rule.events() {
        let owner = usize::from(rule.owner(event));
        marking = marking.with_marks(event, stations[owner].marks(event));
    }
    marking
}

impl<R: Rule + Drop, L: Line + Drop> Site<R, L> {
    /// The whole site's enabled and owed events, unless a message waits.
    pub fn work_list(&self) -> Result<WorkList, Refusal>
        requires { L.Line.sound self.now.line }
        ensures { CallServed R.Rule L.Line self.now AskWorkList (listing result) self.now }
    {
        let stations = self.stations.as_ref().ok_or(Refusal::WrongState)?;
        if lowest_pair(&self.line).is_some() {
            return Err(Refusal::MessageWaits);
        }
        let marking = gathered(&self.rule, stations);
        Ok(WorkList {
            enabled: enabled_events(&self.rule, &marking),
            owed: marking.owed().common(EventSet::first(self.rule.events())),
        })
    }

    /// The station's own owed events, as its own marking has them.
    pub fn tally(&self, station: u8) -> Result<EventSet, Refusal>
        requires { L.Line.sound self.now.line }
        ensures { CallServed R.Rule L.Line self.now (Tally station) (tallying result) self.now }
    {
        let stations = self.stations.as_ref().ok_or(Refusal::WrongState)?;
        let me = known(&self.rule, station)?;
        let role = Role {
            rule: &self.rule,
            me,
        };
        Ok(stations[usize::from(me)].own_owed(&role))
    }
}

ghost use Rattle.lines.specs.Lists.{Lists};
ghost use Rattle.protocol.specs.Turns.{opened, refusal};
ghost use Rattle.protocol.specs.declared.call.Call.TheVariants.{Request};
ghost use Rattle.site.specs.Outcomes.{opening};
ghost use Rattle.site.specs.Served.{CallServed};
ghost use Rattle.site.specs.Statuses.{site_of};
ghost use Rattle.std.specs.Prelude.{◌≡◌, ◌<◌, length, Some, None, MatchResult};

use crate::carries::known;
use crate::site::Site;
use lines::line::Line;
use protocol::refusal::Refusal;
use rules::rule::Rule;
use stations::station::Station;
use stations::station_id::StationId;

// The station that may open a request of the event, or why it may not.
fn requester<R: Rule>(
    rule: &R,
    stations: &[Station; 8],
    station: u8,
    event: u8,
) -> Result<StationId, Refusal>
    ensures { (W : Lists) → MatchResult result (λ me. (refusal (R.Rule.meaning rule.now) (opened (site_of W stations.now)) (Request station event) ≡ None) × ((me ≡ station) × (station < length stations.now))) (λ e. refusal (R.Rule.meaning rule.now) (opened (site_of W stations.now)) (Request station event) ≡ Some e) }
{
    let me = known(rule, station)?;
    if event >= rule.events() {
        return Err(Refusal::UnknownEvent);
    }
    if rule.owner(event) != station {
        return Err(Refusal::OtherOwner);
    }
    if !stations[usize::from(me)].is_resting() {
        return Err(Refusal::RequestOpen);
    }
    Ok(me)
}

impl<R: Rule + Drop, L: Line + Drop> Site<R, L> {
    /// Opens a request of the event at the station, which asks for the lowest event of the lock set.
    pub fn request(&mut self, station: u8, event: u8) -> Result<(), Refusal>
        requires { L.Line.sound self.old.line }
        ensures { CallServed R.Rule L.Line self.old (Request station event) (opening result) self.new }
    {
        let stations = self.stations.as_mut().ok_or(Refusal::WrongState)?;
        let me = requester(&self.rule, stations, station, event)?;
        let at = usize::from(me);
        let mut asking = stations[at];
        let out = asking.begin(&self.rule, event)?;
        out.send(&mut self.line, me)?;
        stations[at] = asking;
        Ok(())
    }
}

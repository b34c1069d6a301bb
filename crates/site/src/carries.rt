ghost use Rattle.std.specs.Prelude.{◌≡◌, ◌<◌, ◌≤◌, MatchResult};
ghost use Rattle.protocol.specs.declared.call.Call.TheVariants.{Carry};
ghost use Rattle.protocol.specs.declared.refusal.Refusal.TheVariants.{UnknownStation};
ghost use Rattle.site.specs.Outcomes.{carrying};
ghost use Rattle.site.specs.Served.{CallServed};

use crate::pairs::Pair;
use crate::site::{CarryAnswer, Site};
use crate::transfers::transfer;
use lines::line::Line;
use protocol::refusal::Refusal;
use rules::rule::Rule;
use stations::station_id::StationId;

// The station of that number, if the rule has it.
pub(crate) fn known<R: Rule>(rule: &R, station: u8) -> Result<StationId, Refusal>
    ensures { MatchResult result (λ id. (station < (R.Rule.meaning rule.now).stations) × (id ≡ station)) (λ e. ((R.Rule.meaning rule.now).stations ≤ station) × (e ≡ UnknownStation)) }
{
    if station >= rule.stations() {
        return Err(Refusal::UnknownStation);
    }
    Ok(StationId::try_from(station)?)
}

impl<R: Rule + Drop, L: Line + Drop> Site<R, L> {
    /// Carries one message from a station to another, which does its step.
    pub fn carry(&mut self, from: u8, to: u8) -> Result<CarryAnswer, Refusal>
        requires { L.Line.sound self.old.line }
        ensures { CallServed R.Rule L.Line self.old (Carry from to) (carrying result) self.new }
    {
        let stations = self.stations.as_mut().ok_or(Refusal::WrongState)?;
        let from = known(&self.rule, from)?;
        let to = known(&self.rule, to)?;
        Ok(transfer(&self.rule, &mut self.line, stations, Pair { from, to })?)
    }
}

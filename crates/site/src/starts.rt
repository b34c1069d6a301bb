ghost use Rattle.std.specs.Prelude.{◌≡◌, ℕ, ◌<◌, length, slice_index_or};
ghost use Rattle.protocol.specs.Station.{fresh};
ghost use Rattle.protocol.specs.declared.call.Call.TheVariants.{Start};
ghost use Rattle.site.specs.Outcomes.{starting};
ghost use Rattle.site.specs.Served.{CallServed};
ghost use Rattle.stations.specs.Shows.{blank, shows};

use crate::pairs::lowest_pair;
use crate::site::Site;
use lines::line::Line;
use protocol::refusal::Refusal;
use rules::rule::Rule;
use stations::role::Role;
use stations::station::Station;
use stations::station_id::StationId;

// Every station as it is at the start.
fn fresh_stations<R: Rule>(rule: &R) -> [Station; 8]
    ensures long { length result ≡ 8 }
    ensures each { (k : ℕ) → k < 8 → shows (slice_index_or result k blank) ≡ fresh (R.Rule.meaning rule.now) k }
{
    StationId::all().map(
        |me|
            ensures { shows result ≡ fresh (R.Rule.meaning rule.entry.now) me }
        { Station::fresh(&Role { rule, me }) },
    )
}

impl<R: Rule + Drop, L: Line + Drop> Site<R, L> {
    /// Opens the site, unless it is open or its line has a message.
    pub fn start(&mut self) -> Result<(), Refusal>
        requires { L.Line.sound self.old.line }
        ensures { CallServed R.Rule L.Line self.old Start (starting result) self.new }
    {
        if self.stations.is_some() || lowest_pair(&self.line).is_some() {
            return Err(Refusal::WrongState);
        }
        self.stations = Some(fresh_stations(&self.rule));
        Ok(())
    }
}

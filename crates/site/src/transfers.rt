ghost use Rattle.std.specs.Prelude.{◌≡◌, length};
ghost use Rattle.site.specs.Statuses.{site_of};
ghost use Rattle.site.specs.Transfers.{Transferred};

use crate::pairs::Pair;
use crate::site::CarryAnswer;
use lines::line::Line;
use lines::note::Note;
use protocol::delivery::StrayMessage;
use rules::rule::Rule;
use stations::role::Role;
use stations::station::Station;
use stations::station_id::StationId;

// Rule, line and stations stay apart: where a struct keeps a `&mut` of the stations, no proof sees what it leaves in the site.
// Takes the oldest message of a pair, and does the receiving station's step; a stray message is only removed.
pub(crate) fn transfer<R: Rule, L: Line>(
    rule: &R,
    line: &mut L,
    stations: &mut [Station; 8],
    pair: Pair,
) -> Result<CarryAnswer, StrayMessage>
    requires { L.Line.sound line.old }
    ensures sound { L.Line.sound line.new }
    ensures transferred { Transferred (R.Rule.meaning rule.now) L.Line.most (site_of (L.Line.waits line.old) stations.old) pair.from pair.to result (site_of (L.Line.waits line.new) stations.new) }
{
    let Pair { from, to } = pair;
    let Some(message) = line.take(from.into(), to.into()) else {
        return Ok(CarryAnswer::Nothing);
    };
    let note = Note::try_from(message).ok();
    let at = usize::from(to);
    let mut station = stations[at];
    let (answer, out) = station.step(&Role { rule, me: to }, from, note)?;
    out.send(line, to)?;
    stations[at] = station;
    match answer {
        None => Ok(CarryAnswer::Carried),
        Some(answer) => Ok(CarryAnswer::Answered(answer)),
    }
}

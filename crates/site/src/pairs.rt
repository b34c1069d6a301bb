ghost use Rattle.std.specs.Prelude.{◌≡◌, ◌+◌, ◌*◌, ◌<◌, Some, None, MatchOption};
ghost use Rattle.protocol.specs.Queues.{queues};
ghost use Rattle.protocol.specs.Turns.{lowest_pair};

use lines::line::Line;
use stations::station_id::StationId;

// A pair of stations on which a message waits.
#[derive(Clone, Copy)]
pub(crate) struct Pair {
    pub(crate) from: StationId,
    pub(crate) to: StationId,
}

// The lowest pair that holds a message.
pub(crate) fn lowest_pair<L: Line>(line: &L) -> Option<Pair>
    requires { L.Line.sound line.now }
    ensures { MatchOption result (lowest_pair (queues (L.Line.waits line.now)) ≡ None) (λ p. (lowest_pair (queues (L.Line.waits line.now)) ≡ Some (8 * p.from + p.to)) × (p.to < 8)) }
{
    for from in StationId::all() {
        let a = u8::from(from);
        // By number: in a walk over the stations themselves each pair is looked at by itself.
        for b in 0..8u8 {
            if line.count(a, b) > 0 {
                let to = StationId::try_from(b).ok()?;
                return Some(Pair { from, to });
            }
        }
    }
    None
}

ghost use Rattle.reports.specs.Texts.{call_text};
ghost use Rattle.std.specs.Prelude.{Some};

use crate::shown::Shown;
use protocol::call::Call;
use std::fmt;

/// The letter of the call and its numbers. The room of a settle is left out.
impl fmt::Display for Shown<Call> {
    ghost output = { λ s. Some (call_text s.0) };

    fn fmt<W: fmt::Write>(&self, f: &mut fmt::Formatter<W>) -> fmt::Result {
        match self.0 {
            Call::Start => f.write_str("b"),
            Call::Request { station, event } => write!(f, "q {station} {event}"),
            Call::Carry { from, to } => write!(f, "t {from} {to}"),
            Call::Settle { .. } => f.write_str("z"),
            Call::WorkList => f.write_str("w"),
            Call::Tally { station } => write!(f, "y {station}"),
        }
    }
}

ghost use Rattle.reports.specs.Texts.{events_text};
ghost use Rattle.std.specs.Prelude.{Some};

use crate::shown::Shown;
use events::EventSet;
use std::fmt;

/// A space and the number of each member, lowest first, or ` none`.
impl fmt::Display for Shown<EventSet> {
    ghost output = { λ s. Some (events_text s.0) };

    fn fmt<W: fmt::Write>(&self, f: &mut fmt::Formatter<W>) -> fmt::Result {
        if self.0.is_empty() {
            return f.write_str(" none");
        }
        for event in self.0.members() {
            write!(f, " {event}")?;
        }
        Ok(())
    }
}

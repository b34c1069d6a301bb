ghost use Rattle.fompaqi.specs.Verdicts.{verdict_line};
ghost use Rattle.std.specs.Prelude.{Some};

use graph::graph::Graph;
use std::fmt;
use text::fault::{GraphFault, Report};

/// What is told first of a text that was read: what it declares, or its fault.
#[derive(Clone, Copy)]
pub struct Verdict<'a>(pub Result<&'a Graph, &'a GraphFault>);

impl fmt::Display for Verdict<'_> {
    ghost output = { λ verdict. Some (verdict_line verdict.0) };

    fn fmt<W: fmt::Write>(&self, f: &mut fmt::Formatter<W>) -> fmt::Result {
        match self.0 {
            Ok(graph) => {
                let stations = graph.stations();
                let release = u8::from(graph.release());
                let events = graph.events().len();
                let relations = graph.relations().len();
                write!(
                    f,
                    "ok: {stations} stations, release {release}, {events} events, {relations} relations"
                )
            }
            Err(fault) => {
                let report = Report::from(*fault);
                write!(f, "{report}")
            }
        }
    }
}

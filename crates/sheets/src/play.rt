use graph::graph::Graph;
use memory_line::memory_line::MemoryLine;
use protocol::call::{Call, Reply};
use reports::Shown;
use rules::release_rule::ReleaseRule;
use runs::run::run;
use runs::table::{TableCall, serve_table};
use tables::table::Table;
use text::builder::read;
use text::fault::Report;

/// A worked case: its title, a text, and what is done with it.
#[derive(Clone, Copy)]
pub struct Case {
    pub title: &'static str,
    pub text: &'static [u8],
    pub play: Play,
}

/// What a case does with its text.
#[derive(Clone, Copy)]
pub enum Play {
    /// Makes the calls on a site over the line in memory.
    Site(&'static [Call]),
    /// Makes the calls on one table.
    Table(&'static [TableCall]),
    /// Reads the text, which is not in order.
    Fault,
}

impl Case {
    /// Prints the title, and what comes of the case.
    pub fn play(&self, rt: &HostRuntime) -> anyhow::Result<()> {
        println!(rt; "# {}", self.title)?;
        match self.play {
            Play::Site(calls) => site(rt, read_graph(self.text)?, calls),
            Play::Table(calls) => table(rt, read_graph(self.text)?, calls),
            Play::Fault => fault(rt, self.text),
        }
    }
}

fn read_graph(text: &[u8]) -> Result<Graph, Report> {
    read(text).map_err(Report::from)
}

fn site(rt: &HostRuntime, graph: Graph, calls: &[Call]) -> anyhow::Result<()> {
    let mut outcomes = vec![in rt.alloc(); Ok(Reply::Nothing); calls.len()]?;
    let rule = ReleaseRule::of(graph);
    let _ = run(rule, MemoryLine::new(), calls, outcomes.as_mut_slice());
    for (call, outcome) in calls.iter().zip(outcomes.iter()) {
        println!(rt; "{} -> {}", Shown(*call), Shown(*outcome))?;
    }
    Ok(())
}

fn table(rt: &HostRuntime, graph: Graph, calls: &[TableCall]) -> anyhow::Result<()> {
    let mut table = Table::new(ReleaseRule::of(graph));
    for call in calls {
        let outcome = Shown(serve_table(&mut table, *call));
        match call {
            TableCall::Request(event) => println!(rt; "q {event} -> {outcome}")?,
            TableCall::WorkList => println!(rt; "w -> {outcome}")?,
        }
    }
    Ok(())
}

fn fault(rt: &HostRuntime, text: &[u8]) -> anyhow::Result<()> {
    if let Err(report) = read_graph(text) {
        println!(rt; "{report}")?;
    }
    Ok(())
}

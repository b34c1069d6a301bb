use crate::failure::Failure;
use crate::input::{graph_of, script_of};
use crate::script::script_line;
use crate::shown::ShownLine;
use lexer::lines::Lines;
use reports::Shown;
use rules::release_rule::ReleaseRule;
use runs::table::{TableCall, serve_table};
use tables::table::Table;

/// Plays the script on one table of the graph.
pub fn run(rt: &HostRuntime, graph_path: &str, script_path: &str) -> Result<(), Failure> {
    let graph = graph_of(rt, graph_path)?;
    let script = script_of::<TableCall>(rt, script_path)?;
    let mut table = Table::new(ReleaseRule::of(graph));
    for line in Lines::new(script.as_slice()) {
        if let Ok(Some(call)) = script_line(line) {
            let written = ShownLine(line.part.bytes);
            println!(rt; "{written} -> {}", Shown(serve_table(&mut table, call)))?;
        }
    }
    Ok(())
}

use crate::explain::rule;
use crate::failure::Failure;
use crate::input::{GRAPH_BYTES, text_of};
use crate::shown::ShownLine;
use crate::verdict::Verdict;
use lexer::lines::line_at;
use std::process::ExitCode;
use text::builder::read;
use text::fault::{GraphFault, Report};

/// Reads the graph text in the file and prints what it declares, or its fault.
pub fn run(rt: &HostRuntime, path: &str) -> Result<ExitCode, Failure> {
    let text = text_of(rt, path, GRAPH_BYTES)?;
    let graph = read(text.as_slice());
    rt.println(Verdict(graph.as_ref()))?;
    match graph {
        Ok(_) => Ok(ExitCode::SUCCESS),
        Err(fault) => {
            print_rule(rt, fault, text.as_slice())?;
            Ok(ExitCode::FAILURE)
        }
    }
}

/// The rule that is broken, and the line that breaks it, if there is one to show.
fn print_rule(rt: &HostRuntime, fault: GraphFault, text: &[u8]) -> Result<(), Failure> {
    match line_at(text, Report::from(fault).line) {
        Some(line) if !line.is_empty() => {
            let rule = rule(fault, line.first().copied());
            println!(rt; "{rule}: {}", ShownLine(line))?;
        }
        _ => rt.println(rule(fault, None))?,
    }
    Ok(())
}

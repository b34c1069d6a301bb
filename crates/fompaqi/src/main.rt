//! The parts case engine on the command line.
#![tactic(auto)]

mod check;
mod command;
mod explain;
mod failure;
mod input;
mod script;
mod shown;
mod site_play;
mod table;
mod verdict;

use command::{Command, USAGE};
use failure::Failure;
use std::env;
use std::process::ExitCode;

fn main(rt: HostRuntime) -> ExitCode {
    match run(&rt) {
        Ok(status) => status,
        // Where nothing can be written or no memory is left, only the status says so.
        Err(Failure::System(_) | Failure::Memory(_)) => ExitCode::FAILURE,
        Err(failure) => {
            let _ = rt.eprintln(failure);
            ExitCode::FAILURE
        }
    }
}

fn run(rt: &HostRuntime) -> Result<ExitCode, Failure> {
    let mut words = env::args(rt)?;
    let _program = words.next();
    match Command::of(&mut words)? {
        Command::Help => rt.println(USAGE)?,
        Command::Check(graph) => return check::run(rt, graph.as_str()),
        Command::Table { graph, script } => table::run(rt, graph.as_str(), script.as_str())?,
        Command::Site {
            graph,
            script,
            line,
        } => {
            site_play::run(rt, graph.as_str(), script.as_str(), line)?;
        }
    }
    Ok(ExitCode::SUCCESS)
}

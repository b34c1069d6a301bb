ghost use Rattle.std.specs.Prelude.{IfOk};
ghost use Rattle.fompaqi.specs.Scripts.{SiteFits, WritesCalls, site_line};
ghost use Rattle.lexer.specs.Lines.{lines};

use crate::command::LineKind;
use crate::failure::Failure;
use crate::input::{graph_of, script_of};
use crate::script::script_line;
use crate::shown::ShownLine;
use lexer::lines::Lines;
use memory_line::memory_line::MemoryLine;
use protocol::call::{Call, Outcome, Reply};
use reports::Shown;
use rules::release_rule::ReleaseRule;
use runs::run::run as run_site;
use spool::spool::{SIZE, Spool};
use std::alloc::{AllocError, Global};

/// Plays the script on a site of the graph, over that line.
pub fn run(
    rt: &HostRuntime,
    graph_path: &str,
    script_path: &str,
    line: LineKind,
) -> Result<(), Failure> {
    let rule = ReleaseRule::of(graph_of(rt, graph_path)?);
    let script = script_of::<Call>(rt, script_path)?;
    let calls = calls_of(rt.alloc(), script.as_slice())?;
    let mut outcomes = vec![in rt.alloc(); Ok(Reply::Nothing); calls.len()]?;
    play(rule, line, calls.as_slice(), outcomes.as_mut_slice());
    print(rt, script.as_slice(), outcomes.as_slice())
}

/// The calls of the script, in order.
fn calls_of(alloc: Global, script: &[u8]) -> Result<Vec<Call>, AllocError>
    ensures { IfOk result (λ v. WritesCalls site_line SiteFits (lines script.now) v.items) }
{
    let mut calls = Vec::new(alloc);
    for line in Lines::new(script) {
        if let Ok(Some(call)) = script_line(line) {
            calls.push(call)?;
        }
    }
    Ok(calls)
}

/// Makes the calls on a site that is put together for them.
fn play(rule: ReleaseRule, line: LineKind, calls: &[Call], outcomes: &mut [Outcome]) {
    // Two arms: each line is a type of its own.
    let _ = match line {
        LineKind::Memory => run_site(rule, MemoryLine::new(), calls, outcomes),
        LineKind::Spool => run_site(rule, Spool::new(&mut [0; SIZE]), calls, outcomes),
    };
}

/// A line for each call: the call as it is written, and what came of it.
fn print(rt: &HostRuntime, script: &[u8], outcomes: &[Outcome]) -> Result<(), Failure> {
    let mut given = outcomes.iter();
    for line in Lines::new(script) {
        if let Ok(Some(_)) = script_line::<Call>(line)
            && let Some(outcome) = given.next()
        {
            let written = ShownLine(line.part.bytes);
            println!(rt; "{written} -> {}", Shown(*outcome))?;
        }
    }
    Ok(())
}

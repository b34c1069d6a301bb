ghost use Rattle.std.specs.Prelude.{◌≡◌, ◌≤◌, IfOk, length};
ghost use Rattle.fompaqi.specs.Scripts.{InOrder};
ghost use Rattle.lexer.specs.Lines.{lines};

use crate::failure::Failure;
use crate::script::{NoCall, ScriptCall, script_line};
use crate::shown::ShownLine;
use graph::graph::Graph;
use lexer::lines::Lines;
use std::io::Read;
use std::{fs, io};
use text::builder::read;
use text::fault::Report;

/// One byte more than a graph text may have, so that a longer one is told apart and no more of it is read.
pub const GRAPH_BYTES: usize = 65_537;

/// One byte more than a script may have.
pub const SCRIPT_BYTES: usize = 1_048_577;

/// The bytes of the file, or so many of them.
fn bytes_of(rt: &HostRuntime, path: &str, most: usize) -> io::Result<Vec<u8>>
    ensures { IfOk result (λ v. length v.items ≤ most) }
{
    let mut text = Vec::new(rt.alloc());
    fs::open(rt, path)?
        .take(most as u64)
        .read_to_end(&mut text)?;
    // The library promises no bound for a reader of unknown bytes.
    text.truncate(most);
    Ok(text)
}

/// The bytes of the file, or so many of them.
// A `match`: a copy of the path can fail, as no closure of `map_err` may. Handle and path are two, as in the library.
pub fn text_of(rt: &HostRuntime, path: &str, most: usize) -> Result<Vec<u8>, Failure>
    ensures { IfOk result (λ v. length v.items ≤ most) }
{
    match bytes_of(rt, path, most) {
        Ok(text) => Ok(text),
        Err(error) => Err(Failure::Unreadable {
            path: String::from_str(rt.alloc(), path)?,
            error,
        }),
    }
}

/// The graph in the file.
pub fn graph_of(rt: &HostRuntime, path: &str) -> Result<Graph, Failure> {
    let text = text_of(rt, path, GRAPH_BYTES)?;
    match read(text.as_slice()) {
        Ok(graph) => Ok(graph),
        Err(fault) => Err(Failure::Graph {
            path: String::from_str(rt.alloc(), path)?,
            report: Report::from(fault),
        }),
    }
}

/// The script in the file, each line of which is a call or is passed over.
// The bytes and no list of calls: a line is printed as it is written, and each player reads its calls from there.
pub fn script_of<C: ScriptCall + Drop>(rt: &HostRuntime, path: &str) -> Result<Vec<u8>, Failure>
    ensures few { IfOk result (λ v. length v.items ≤ 1048576) }
    ensures in_order { IfOk result (λ v. InOrder C.written C.fits (lines v.items)) }
{
    let script = text_of(rt, path, SCRIPT_BYTES)?;
    if script.len() >= SCRIPT_BYTES {
        let path = String::from_str(rt.alloc(), path)?;
        return Err(Failure::LongScript { path });
    }
    check_script::<C>(rt, path, script.as_slice())?;
    Ok(script)
}

/// Refuses a script with a line that is no call, before anything is played.
fn check_script<C: ScriptCall + Drop>(
    rt: &HostRuntime,
    path: &str,
    script: &[u8],
) -> Result<(), Failure>
    ensures { IfOk result (λ _. InOrder C.written C.fits (lines script.now)) }
{
    for line in Lines::new(script) {
        if let Err(NoCall) = script_line::<C>(line) {
            return Err(Failure::NoCall {
                path: String::from_str(rt.alloc(), path)?,
                line: line.number,
                written: ShownLine(line.part.bytes).to_string(rt.alloc())?,
                forms: C::FORMS,
            });
        }
    }
    Ok(())
}

use crate::script::CALLS;
use lines::line::Line;
use lines::play::LineAnswer;
use std::alloc::{AllocError, Global};
use std::fmt::Write;

/// A line for each call: the call, and what the memory line and the spool answer.
// Two lists of answers: the calls are played on one line, and then on the other.
pub fn calls(rt: &HostRuntime, memory: &[LineAnswer], spool: &[LineAnswer]) -> anyhow::Result<()> {
    for ((call, in_memory), in_spool) in CALLS.iter().zip(memory).zip(spool) {
        println!(rt; "{call} -> memory {in_memory}; spool {in_spool}")?;
    }
    Ok(())
}

/// Takes what waits on the pair, oldest first.
fn taken<L: Line>(alloc: Global, line: &mut L, from: u8, to: u8) -> Result<String, AllocError>
    requires { L.Line.sound line.old }
    ensures { L.Line.sound line.new }
{
    let mut list = String::new(alloc);
    while let Some(oldest) = line.take(from, to) {
        write!(list, "; {oldest}")?;
    }
    Ok(list)
}

/// Takes and prints what waits on each pair.
pub fn lists<L: Line>(rt: &HostRuntime, line: &mut L) -> anyhow::Result<()>
    requires { L.Line.sound line.old }
    ensures { L.Line.sound line.new }
{
    for from in 0..8 {
        for to in 0..8 {
            let list = taken(rt.alloc(), line, from, to)?;
            if !list.is_empty() {
                println!(rt; "memory {from} {to}{list}")?;
            }
        }
    }
    Ok(())
}

/// The bytes of each pair that holds a message, and those past the spool.
pub fn bytes(rt: &HostRuntime, bytes: &[u8]) -> anyhow::Result<()> {
    for (pair, slot) in bytes.chunks(13).enumerate() {
        if slot.len() < 13 {
            println!(rt; "past the spool: {slot:?}")?;
        } else if slot[0] > 0 {
            println!(rt; "pair {} {}: {slot:?}", pair / 8, pair % 8)?;
        }
    }
    Ok(())
}

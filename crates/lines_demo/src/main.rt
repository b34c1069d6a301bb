//! Plays one list of calls on both lines, and prints what they answer and the bytes of the spool.
#![tactic(auto)]

mod script;
mod show;

use lines::line::Line;
use lines::play::{LineAnswer, play};
use memory_line::memory_line::MemoryLine;
use script::{CALLS, LENGTH};
use spool::spool::{ShortMemory, Spool};

/// Three bytes more than a spool uses, to see that these stay as they are.
const LENT: usize = 835;

/// What stands in a place for an answer before the call is made.
const NO_ANSWER: LineAnswer = LineAnswer::Taken(None);

/// What the line answers to the calls.
fn answers<L: Line>(line: &mut L) -> [LineAnswer; LENGTH]
    requires { L.Line.sound line.old }
    ensures { L.Line.sound line.new }
{
    let mut answers = [NO_ANSWER; LENGTH];
    let _ = play(line, &CALLS, &mut answers);
    answers
}

/// What a spool in the lent bytes answers, if these are enough for one.
fn spool_answers(bytes: &mut [u8]) -> Result<[LineAnswer; LENGTH], ShortMemory> {
    spool::spool::check(bytes)?;
    Ok(answers(&mut Spool::new(bytes)))
}

fn main(rt: HostRuntime) -> anyhow::Result<()> {
    let mut line = MemoryLine::new();
    let in_memory = answers(&mut line);

    let mut short = [255u8; 831];
    if let Err(refusal) = spool_answers(&mut short) {
        println!(rt; "refused {}", u8::from(refusal))?;
    }
    let mut bytes = [255u8; LENT];
    if let Ok(in_spool) = spool_answers(&mut bytes) {
        show::calls(&rt, &in_memory, &in_spool)?;
    }
    show::lists(&rt, &mut line)?;
    show::bytes(&rt, &bytes)
}

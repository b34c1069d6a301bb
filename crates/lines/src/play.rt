// Any line, played by a list of calls.
ghost use Rattle.std.specs.Prelude.{◌≡◌, ℕ, min, length, take, drop, Some};
ghost use Rattle.lines.specs.Plays.{PairsAreQueues, answers, lists, served, told};
ghost use Rattle.lines.specs.Texts.{answer_text, call_text};

use crate::line::{Full, Line};
use crate::message::Message;
use std::fmt;

/// A call of a line.
#[derive(Clone, Copy)]
pub enum LineCall {
    Post { from: u8, to: u8, message: Message },
    Take { from: u8, to: u8 },
    Count { from: u8, to: u8 },
}

/// What a call of a line answers.
#[derive(Clone, Copy)]
pub enum LineAnswer {
    Posted(Result<(), Full>),
    Taken(Option<Message>),
    Counted(usize),
}

impl fmt::Display for LineCall {
    ghost output = { λ call. Some (call_text call) };

    fn fmt<W: fmt::Write>(&self, f: &mut fmt::Formatter<W>) -> fmt::Result {
        match *self {
            LineCall::Post { from, to, message } => write!(f, "post {from} {to}: {message}"),
            LineCall::Take { from, to } => write!(f, "take {from} {to}"),
            LineCall::Count { from, to } => write!(f, "count {from} {to}"),
        }
    }
}

impl fmt::Display for LineAnswer {
    ghost output = { λ answer. Some (answer_text answer) };

    fn fmt<W: fmt::Write>(&self, f: &mut fmt::Formatter<W>) -> fmt::Result {
        match *self {
            LineAnswer::Posted(Ok(())) => f.write_str("posted"),
            LineAnswer::Posted(Err(full)) => {
                let number = u8::from(full);
                write!(f, "refused {number}")
            }
            LineAnswer::Taken(Some(message)) => write!(f, "{message}"),
            LineAnswer::Taken(None) => f.write_str("nothing"),
            LineAnswer::Counted(count) => write!(f, "{count}"),
        }
    }
}

/// Makes one call.
pub fn serve<L: Line>(line: &mut L, call: LineCall) -> LineAnswer
    requires { L.Line.sound line.old }
    ensures sound { L.Line.sound line.new }
    ensures answer { result ≡ told L.Line.most (L.Line.waits line.old) call }
    ensures lists { (a b : ℕ) → L.Line.waits line.new a b ≡ served L.Line.most (L.Line.waits line.old) call a b }
{
    match call {
        LineCall::Post { from, to, message } => LineAnswer::Posted(line.post(from, to, message)),
        LineCall::Take { from, to } => LineAnswer::Taken(line.take(from, to)),
        LineCall::Count { from, to } => LineAnswer::Counted(line.count(from, to)),
    }
}

/// Makes one call after another, as long as there is a place for its answer, and tells how many.
// Not one function with the calls of a site: what a call promises is its own, and a closure's contract would repeat it.
pub fn play<L: Line>(line: &mut L, calls: &[LineCall], places: &mut [LineAnswer]) -> usize
    requires { L.Line.sound line.old }
    ensures sound { L.Line.sound line.new }
    ensures count { result ≡ min (length calls.now) (length places.old) }
    ensures answers { take result places.new ≡ answers L.Line.most (L.Line.waits line.old) (take result calls.now) }
    ensures rest { drop result places.new ≡ drop result places.old }
    ensures lists { L.Line.waits line.new ≡ lists L.Line.most (L.Line.waits line.old) (take result calls.now) }
{
    let count = calls.len().min(places.len());
    // The places by index: of what is written through `iter_mut` in a zip a proof knows nothing.
    for (i, call) in calls[..count].iter().enumerate() {
        places[i] = serve(line, *call);
    }
    count
}

/// On each pair a line is a queue of its limit, whatever is done on other pairs, for proofs to cite.
pub fn pairs_are_queues()
    ensures { PairsAreQueues }
{}

use crate::answer::{Answer, Answers};
use crate::refusal::Refusal;
use events::EventSet;

/// A call of a site.
#[derive(Clone, Copy)]
pub enum Call {
    /// Opens the site.
    Start,
    /// Asks for an event at a station.
    Request { station: u8, event: u8 },
    /// Carries one message.
    Carry { from: u8, to: u8 },
    /// Carries until no message waits, with a table of so many entries for the answers.
    Settle { room: usize },
    /// Asks for the enabled and the owed events.
    WorkList,
    /// Asks for the owed events of a station.
    Tally { station: u8 },
}

/// What a call gives that is not refused.
#[derive(Clone, Copy)]
pub enum Reply {
    Started,
    /// The request is open.
    Opened,
    /// No message waits on the pair.
    Nothing,
    Carried,
    Answered(Answer),
    /// The answers were given, and so many messages were carried.
    Settled { answers: Answers, messages: usize },
    Listed { enabled: EventSet, owed: EventSet },
    Tallied { owed: EventSet },
}

/// What a call of a site came to.
pub type Outcome = Result<Reply, Refusal>;

ghost use Rattle.protocol.specs.Refusals.{refusal_number};
ghost use Rattle.protocol.specs.declared.refusal.Refusal.TheVariants as Refusals;
ghost use Rattle.std.specs.Prelude.{◌≡◌};

use crate::delivery::StrayMessage;
use rules::decision::UnknownEvent;

/// Why a call of a site is refused, with the number of the refusal.
#[derive(Clone, Copy)]
pub enum Refusal {
    /// The station is not in the graph.
    UnknownStation = 8,
    /// The event is not in the graph.
    UnknownEvent = 9,
    /// Another station owns the event.
    OtherOwner = 10,
    /// The station has an open request.
    RequestOpen = 11,
    /// A work list is asked for while a message waits.
    MessageWaits = 12,
    /// A start of an open site or over a line with a message, or any other call of a closed site.
    WrongState = 13,
    /// A stray message, or a full pair.
    Stray = 14,
    /// The table for the answers has fewer than eight entries.
    ShortTable = 17,
}

impl From<Refusal> for u8 {
    // The number of the refusal.
    ghost from_gives = { λ refusal number. number ≡ refusal_number refusal };

    fn from(refusal: Refusal) -> u8 {
        refusal as u8
    }
}

impl From<StrayMessage> for Refusal {
    // A stray message has the call refused.
    ghost from_gives = { λ _ refusal. refusal ≡ Refusals.Stray };

    fn from(_: StrayMessage) -> Refusal {
        Refusal::Stray
    }
}

impl From<UnknownEvent> for Refusal {
    // A table refuses an event that it lacks as a site does.
    ghost from_gives = { λ _ refusal. refusal ≡ Refusals.UnknownEvent };

    fn from(_: UnknownEvent) -> Refusal {
        Refusal::UnknownEvent
    }
}

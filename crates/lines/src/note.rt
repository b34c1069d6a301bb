ghost use Rattle.lines.specs.Messages.{WrittenReads, reads, written};
ghost use Rattle.std.specs.Prelude.{◌≡◌, Some, None, MatchResult};

use crate::message::Message;
use events::Marks;

/// What a message says.
#[derive(Clone, Copy)]
pub enum Note {
    /// Asks for the lock of the event.
    Ask { event: u8 },
    /// Grants the lock of the event, which has these marks.
    Grant { event: u8, marks: Marks },
    /// Settles the request for the event.
    Settle { event: u8, accepted: bool },
}

/// The message says nothing: its bytes are refused.
#[derive(Clone, Copy)]
pub struct Unreadable;

impl TryFrom<Message> for Note {
    type Error = Unreadable;

    // What the three bytes say.
    ghost try_from_gives = { λ message result. MatchResult result (λ note. reads message ≡ Some note) (λ _. reads message ≡ None) };

    #[tactic(auto, using(crate::proofs::Reading::of_sum, std::proofs::lemmas::Bool::Decides::nat_tests), unfolding(crate::specs::Messages::reads))]
    fn try_from(message: Message) -> Result<Note, Unreadable> {
        let event = message.event;
        match message.kind {
            1 if message.extra == 0 => Ok(Note::Ask { event }),
            2 => match Marks::try_from(u16::from(message.extra)) {
                Ok(marks) => Ok(Note::Grant { event, marks }),
                Err(_) => Err(Unreadable),
            },
            3 if message.extra < 2 => Ok(Note::Settle {
                event,
                accepted: message.extra == 1,
            }),
            _ => Err(Unreadable),
        }
    }
}

impl From<Note> for Message {
    // The three bytes that say it.
    ghost from_gives = { λ note message. message ≡ written note };

    fn from(note: Note) -> Message {
        match note {
            Note::Ask { event } => Message {
                kind: 1,
                event,
                extra: 0,
            },
            Note::Grant { event, marks } => Message {
                kind: 2,
                event,
                extra: u8::from(marks),
            },
            Note::Settle { event, accepted } => Message {
                kind: 3,
                event,
                extra: u8::from(accepted),
            },
        }
    }
}

/// What is written down reads back, for proofs to cite.
#[tactic(auto, using(crate::proofs::Reading::written_reads))]
pub fn notes_read_back()
    ensures { WrittenReads }
{}

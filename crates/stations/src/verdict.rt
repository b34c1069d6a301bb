ghost use Rattle.std.specs.Prelude.{◌≡◌, ℕ};
ghost use Rattle.events.specs.Marks.{marks};
ghost use Rattle.events.specs.Members.{member};
ghost use Rattle.lines.specs.declared.note.Note.TheVariants.{Settle};
ghost use Rattle.protocol.specs.Station.{concerned};
ghost use Rattle.rules.specs.Answers.{accepted};
ghost use Rattle.stations.specs.Outgoing.{outgoing};
ghost use Rattle.stations.specs.Telling.{told};

use crate::lock_sets::stations_concerned;
use crate::outbox::Outbox;
use events::{Marking, StationSet};
use lines::note::Note;
use protocol::answer::Answer;
use rules::decision::Decision;
use rules::rule::Rule;

// What a station has decided. It can be neither copied nor let go: each station concerned is told.
pub(crate) struct Verdict {
    event: u8,
    decision: Decision,
    concerned: StationSet,
}

impl Verdict {
    // The decision of the event on the marks seen.
    pub(crate) fn reach<R: Rule>(rule: &R, event: u8, seen: &Marking) -> Verdict
        ensures event { result.event ≡ event }
        ensures decision { result.decision ≡ (R.Rule.meaning rule.now).decides event (marks seen.now) }
        ensures concerned { (k : ℕ) → member result.concerned.bits k ≡ concerned (R.Rule.meaning rule.now) event k }
    {
        Verdict {
            event,
            decision: rule.decide(event, seen),
            concerned: stations_concerned(rule, event),
        }
    }

    // The answer, and a settle to each station concerned, lowest first.
    pub(crate) fn settle(self) -> (Answer, Outbox)
        ensures answer { result.0 ≡ record { event = self.event; decision = self.decision } }
        ensures posts { outgoing result.1 ≡ told (member self.concerned.bits) (Settle self.event (accepted self.decision)) }
    {
        let Verdict {
            event,
            decision,
            concerned,
        } = self;
        let note = Note::Settle {
            event,
            accepted: decision.is_accepted(),
        };
        let mut out = Outbox::empty();
        for station in concerned.members() {
            out.push(station, note);
        }
        (Answer { event, decision }, out)
    }
}

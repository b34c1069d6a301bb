ghost use Rattle.events.specs.Members.{member};
ghost use Rattle.protocol.specs.Station.{is, missing, step};
ghost use Rattle.stations.specs.Shows.{shows};
ghost use Rattle.stations.specs.Steps.{Takes};
ghost use Rattle.std.specs.Prelude.{◌≡◌, ◌&&◌, OnErr, Some, ◌==◌};

use super::{State, Station};
use crate::lock_sets::next_lock;
use crate::outbox::Outbox;
use crate::role::Role;
use crate::station_id::StationId;
use crate::verdict::Verdict;
use events::EventSet;
use lines::note::Note;
use protocol::answer::Answer;
use protocol::delivery::StrayMessage;
use rules::rule::Rule;

// Whether the lock is the lowest that the event lacks, and the station owns it.
fn is_due<R: Rule>(rule: &R, event: u8, had: EventSet, lock: u8, from: StationId) -> bool
    ensures { result ≡ (is (missing (R.Rule.meaning rule.now) event (member had.bits)) lock && ((R.Rule.meaning rule.now).owner lock) == from) }
{
    next_lock(rule, event, had) == Some(lock) && rule.owner(lock) == u8::from(from)
}

impl Station {
    /// What the station does at a message, which says a note or nothing: how it is left, what it answers and what is
    /// to be posted. A stray message changes nothing.
    pub fn step<R: Rule>(
        &mut self,
        role: &Role<R>,
        from: StationId,
        note: Option<Note>,
    ) -> Result<(Option<Answer>, Outbox), StrayMessage>
        ensures takes { Takes self.new result (step (R.Rule.meaning role.now.rule.now) role.now.me (shows self.old) from note) }
        ensures stray { OnErr result (shows self.new ≡ shows self.old) }
    {
        let rule = role.rule;
        match (&mut self.state, note) {
            (_, Some(Note::Ask { event })) if role.owns(event) => Ok((None, self.ask(from, event))),
            (State::Asking { event, had, seen }, Some(Note::Grant { event: lock, marks }))
                if is_due(rule, *event, *had, lock, from) => {
                *had = had.with(lock);
                *seen = seen.with_marks(lock, marks);
                match next_lock(rule, *event, *had) {
                    Some(next) => {
                        let ask = Note::Ask { event: next };
                        Ok((None, Outbox::single(rule.owner(next), ask)))
                    }
                    None => {
                        let verdict = Verdict::reach(rule, *event, seen);
                        self.state = State::Resting;
                        let (answer, settles) = verdict.settle();
                        Ok((Some(answer), settles))
                    }
                }
            }
            (_, Some(Note::Settle { event, accepted })) if Role { rule, me: from }.owns(event) => {
                Ok((None, self.settle(role, from, event, accepted)))
            }
            _ => Err(StrayMessage),
        }
    }
}

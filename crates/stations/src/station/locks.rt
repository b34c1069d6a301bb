ghost use Rattle.std.specs.Prelude.{◌≡◌, ◌+◌, ◌<◌, ◌≤◌, true, ◌++◌, length};
ghost use Rattle.events.specs.Marks.{marks};
ghost use Rattle.lines.specs.declared.note.Note.TheVariants.{Grant};
ghost use Rattle.protocol.specs.Station.{asks, frees, hand, hands, is, marked, next, settled};
ghost use Rattle.stations.specs.Locks.{freed, passed_on, remarked};
ghost use Rattle.stations.specs.Outgoing.{outgoing};
ghost use Rattle.stations.specs.Shows.{shows};

use super::Station;
use crate::outbox::Outbox;
use crate::role::Role;
use crate::station_id::StationId;
use events::{Marking, Marks};
use lines::note::Note;
use rules::rule::Rule;

impl Station {
    // The asker gets the lock of the event, or waits for it.
    // The record is found by `event < 64`: callers know the event as the rule's, so that a type would only repeat it.
    pub(super) fn ask(&mut self, from: StationId, event: u8) -> Outbox
        requires { event < 64 }
        ensures after { shows self.new ≡ (asks (shows self.old) from event ((shows self.old).holder event)).station }
        ensures posts { outgoing result ≡ (asks (shows self.old) from event ((shows self.old).holder event)).posts }
    {
        let asker = u8::from(from);
        let lock = &mut self.locks[event as usize];
        match lock.holder {
            None => {
                lock.holder = Some(asker);
                let marks = self.marking.marks(event);
                Outbox::single(asker, Note::Grant { event, marks })
            }
            Some(_) => {
                lock.waiting = lock.waiting.with(asker);
                Outbox::empty()
            }
        }
    }

    // What a settle brings about: an accepted event is done, and then the locks of the sender are freed.
    pub(super) fn settle<R: Rule>(
        &mut self,
        role: &Role<R>,
        from: StationId,
        event: u8,
        accepted: bool,
    ) -> Outbox
        ensures after { shows self.new ≡ (settled (R.Rule.meaning role.now.rule.now) (shows self.old) from role.now.me event accepted).station }
        ensures posts { outgoing result ≡ (settled (R.Rule.meaning role.now.rule.now) (shows self.old) from role.now.me event accepted).posts }
    {
        if accepted {
            self.perform(role, event);
        }
        let marking = self.marking;
        self.release(role, from, &marking)
    }

    // Doing the event changes the own events.
    fn perform<R: Rule>(&mut self, role: &Role<R>, event: u8)
        ensures { shows self.new ≡ remarked (shows self.old) (marked (R.Rule.meaning role.now.rule.now) (shows self.old) role.now.me event true) }
    {
        let before = self.marking;
        let done = role.rule.perform(event, &before);
        self.marking = before.overlaid(done, role.events());
    }

    // Each own event that the station has locked is freed, lowest event first. Grants tell the marks of the marking.
    fn release<R: Rule>(&mut self, role: &Role<R>, from: StationId, marking: &Marking) -> Outbox
        ensures after { shows self.new ≡ freed (frees (R.Rule.meaning role.now.rule.now) (shows self.old) from role.now.me) (shows self.old) (R.Rule.meaning role.now.rule.now).events }
        ensures posts { outgoing result ≡ hands (frees (R.Rule.meaning role.now.rule.now) (shows self.old) from role.now.me) (next (shows self.old)) (marks marking.now) (R.Rule.meaning role.now.rule.now).events }
    {
        let mut out = Outbox::empty();
        for event in role.events().members() {
            if self.is_held_by(event, from) {
                self.pass_on(event, marking.marks(event), &mut out);
            }
        }
        out
    }

    fn is_held_by(&self, event: u8, station: StationId) -> bool
        requires { event < 64 }
        ensures { result ≡ is ((shows self.now).holder event) station }
    {
        self.locks[event as usize].holder == Some(u8::from(station))
    }

    // The lock of the event goes to the lowest station that waits, with a grant of the given marks, or is free.
    fn pass_on(&mut self, event: u8, given: Marks, out: &mut Outbox)
        requires { (event < 64) × (length (outgoing out.old) < 64) }
        ensures after { shows self.new ≡ passed_on (shows self.old) event }
        ensures posts { outgoing out.new ≡ outgoing out.old ++ hand true (next (shows self.old) event) (Grant event given) }
        ensures count { length (outgoing out.new) ≤ length (outgoing out.old) + 1 }
    {
        let lock = &mut self.locks[event as usize];
        lock.holder = lock.waiting.lowest();
        if let Some(station) = lock.holder {
            lock.waiting = lock.waiting.without(station);
            let grant = Note::Grant {
                event,
                marks: given,
            };
            out.push(station, grant);
        }
    }
}

ghost use Rattle.std.specs.Prelude.{◌≡◌, ℕ, ◌<◌, ◌≤◌, Decides, MatchResult};
ghost use Rattle.events.specs.Marks.{marks};
ghost use Rattle.events.specs.Members.{member};
ghost use Rattle.tables.specs.Runs.{AcceptedExecutes, EnabledAccepted, PendingLasts, RefusedKeeps, RunFolds, accepts, after, next};
ghost use Rattle.rules.specs.Words.{Owed};

use events::{EventSet, Marking};
use rules::decision::{Decision, UnknownEvent};
use rules::rule::Rule;

/// One marking that a rule's requests change.
#[derive(Drop)]
pub struct Table<R: Rule + Drop> {
    rule: R,
    marking: Marking,
}

impl<R: Rule + Drop> Table<R> {
    /// A table with the rule's start marking.
    pub fn new(rule: R) -> Table<R>
        ensures rule { result.rule ≡ rule }
        ensures start { (k : ℕ) → marks result.marking k ≡ (R.Rule.meaning rule).start k }
    {
        let marking = rule.start();
        Table { rule, marking }
    }

    /// Does the event if the rule accepts it.
    pub fn request(&mut self, event: u8) -> Result<Decision, UnknownEvent>
        ensures rule { self.new.rule ≡ self.old.rule }
        ensures answer { MatchResult result (λ d. (event < (R.Rule.meaning self.old.rule).events) × (d ≡ (R.Rule.meaning self.old.rule).decides event (marks self.old.marking))) (λ _. (R.Rule.meaning self.old.rule).events ≤ event) }
        ensures marking { (k : ℕ) → marks self.new.marking k ≡ next (R.Rule.meaning self.old.rule) (marks self.old.marking) event k }
    {
        if event >= self.rule.events() {
            return Err(UnknownEvent);
        }
        let decision = self.rule.decide(event, &self.marking);
        if decision.is_accepted() {
            self.marking = self.rule.perform(event, &self.marking);
        }
        Ok(decision)
    }

    /// Makes one request after another.
    pub fn request_all(&mut self, events: &[u8])
        ensures rule { self.new.rule ≡ self.old.rule }
        ensures marking { (k : ℕ) → marks self.new.marking k ≡ after (R.Rule.meaning self.old.rule) (marks self.old.marking) events.now k }
    {
        for event in events {
            let _ = self.request(*event);
        }
    }

    /// The events whose request would be accepted.
    pub fn enabled(&self) -> EventSet
        ensures { (k : ℕ) → member result.bits k ≡ accepts (R.Rule.meaning self.now.rule) (marks self.now.marking) k }
    {
        enabled_events(&self.rule, &self.marking)
    }

    /// The events that are pending and included.
    pub fn owed(&self) -> EventSet
        ensures { (k : ℕ) → Decides (member result.bits k) (Owed (marks self.now.marking) k) }
    {
        self.marking.owed()
    }
}

/// The events whose request would be accepted on the marking.
pub fn enabled_events<R: Rule>(rule: &R, marking: &Marking) -> EventSet
    ensures { (k : ℕ) → member result.bits k ≡ accepts (R.Rule.meaning rule.now) (marks marking.now) k }
{
    EventSet::first(rule.events()).filter(|event| rule.decide(event, marking).is_accepted())
}

/// The laws of every run, for proofs to cite.
pub fn runs_keep_their_laws()
    ensures enabled { EnabledAccepted }
    ensures refused { RefusedKeeps }
    ensures folded { RunFolds }
    ensures executed { AcceptedExecutes }
    ensures pending { PendingLasts }
{}

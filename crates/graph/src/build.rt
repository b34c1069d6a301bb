ghost use Rattle.std.specs.Prelude.{◌≡◌, ℕ, ◌+◌, ◌-◌, ◌<◌, ◌≤◌, true, false, length, Some, None, MatchOption, MatchResult};
ghost use Rattle.graph.specs.Content.{Content};
ghost use Rattle.graph.specs.Declarations.{Declared, begun, clashing, empty_content, event_error, fits_head, plus_event, plus_relation, relation_error};
ghost use Rattle.graph.specs.Held.{content, held};
ghost use Rattle.graph.specs.Releases.{release_number};
ghost use Rattle.graph.specs.declared.event.Event.{Event as AnyEvent};

use crate::draft::Draft;
use crate::error::BuildError;
use crate::event::Event;
use crate::graph::Graph;
use crate::kind::Kind;
use crate::relation::Relation;
use crate::release::Release;
use arrayvec::ArrayVec;
use events::Marks;

/// The zero record of a relation.
const BLANK: Relation = Relation {
    kind: Kind::Condition,
    from: 0,
    to: 0,
};

impl Graph {
    /// The empty graph: one station, release 6, one event with owner and marks 0, no relation.
    pub fn empty() -> Graph
        ensures { content result ≡ empty_content }
    {
        let mut events = ArrayVec::new();
        events.push(Event::default());
        Graph {
            draft: Draft {
                stations: 1,
                release: Release::Six,
                events,
                table: [BLANK; 512],
                relations: 0,
            },
        }
    }
}

impl Draft {
    /// A draft of so many stations and that release, or `Invalid` where either is out of range.
    pub fn new(stations: u16, release: u16) -> Result<Draft, BuildError>
        ensures { MatchResult result
            (λ d. (fits_head stations release ≡ true) × (release_number d.release ≡ release) × (held d ≡ begun stations d.release))
            (λ f. (fits_head stations release ≡ false) × (f ≡ BuildError.Invalid)) }
    {
        if stations == 0 || stations > 8 {
            return Err(BuildError::Invalid);
        }
        let release = Release::try_from(release)?;
        Ok(Draft {
            stations: stations as u8,
            release,
            events: ArrayVec::new(),
            table: [BLANK; 512],
            relations: 0,
        })
    }

    /// Declares the next event, or refuses it and stays as it was.
    pub fn add_event(&mut self, number: u16, owner: u16, marks: u16) -> Result<(), BuildError>
        ensures { MatchResult result
            (λ _. (event_error (held self.old) number owner marks ≡ None)
            × ((e : AnyEvent) × Declared e owner marks × (held self.new ≡ plus_event (held self.old) e)))
            (λ f. (event_error (held self.old) number owner marks ≡ Some f) × (self.new ≡ self.old)) }
    {
        if self.events.is_full() {
            return Err(BuildError::Full);
        }
        if number as usize != self.events.len() || owner >= self.stations as u16 {
            return Err(BuildError::Invalid);
        }
        let marks = Marks::try_from(marks)?;
        self.events.push(Event {
            owner: owner as u8,
            marks,
        });
        Ok(())
    }

    /// Whether the relation cannot stand beside those that are there.
    fn conflicts(&self, relation: Relation) -> bool
        ensures { result ≡ clashing (held self.now).relations relation.kind relation.from relation.to }
    {
        self.table[..self.relations]
            .iter()
            .any(|other| other.clashes(relation))
    }

    /// Declares one relation more, or refuses it and stays as it was.
    pub fn add_relation(&mut self, kind: Kind, from: u16, to: u16) -> Result<(), BuildError>
        ensures { MatchResult result
            (λ _. (relation_error (held self.old) kind from to ≡ None)
            × (held self.new ≡ plus_relation (held self.old) (record { kind = kind; from = from; to = to })))
            (λ f. (relation_error (held self.old) kind from to ≡ Some f) × (self.new ≡ self.old)) }
    {
        if self.relations == 512 {
            return Err(BuildError::Full);
        }
        let events = self.events.len();
        if from as usize >= events || to as usize >= events {
            return Err(BuildError::Invalid);
        }
        if !self.release.allows(kind) {
            return Err(BuildError::Invalid);
        }
        let relation = Relation {
            kind,
            from: from as u8,
            to: to as u8,
        };
        if self.conflicts(relation) {
            return Err(BuildError::Conflict);
        }
        self.table[self.relations] = relation;
        self.relations += 1;
        Ok(())
    }

    /// The graph of what has been declared, or none where no event has.
    pub fn finish(self) -> Option<Graph>
        ensures { MatchOption result (length (held self).events ≡ 0) (λ g. content g ≡ held self) }
    {
        if self.events.is_empty() {
            return None;
        }
        Some(Graph { draft: self })
    }
}

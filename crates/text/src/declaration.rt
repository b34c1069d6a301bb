use graph::kind::Kind;

/// What one line declares, in its own numbers, before it is held against the graph.
#[derive(Clone, Copy)]
pub enum Declaration {
    Stations { stations: u16, release: u16 },
    Event { number: u16, owner: u16, marks: u16 },
    Relation { kind: Kind, from: u16, to: u16 },
}

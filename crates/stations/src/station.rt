use events::{EventSet, Marking, StationSet};

mod locks;
mod requests;
mod step;

/// A station: its marks, its request and a record for the lock of each event.
#[derive(Clone, Copy)]
pub struct Station {
    marking: Marking,
    state: State,
    locks: [Lock; 64],
}

// Whether a request is open: its event, the locks had so far and the marks seen.
// No `Option`: a step is one match on resting or asking together with the note.
#[derive(Clone, Copy)]
enum State {
    Resting,
    Asking {
        event: u8,
        had: EventSet,
        seen: Marking,
    },
}

// Which station has the lock of an event, and which wait for it.
#[derive(Clone, Copy)]
struct Lock {
    holder: Option<u8>,
    waiting: StationSet,
}

ghost use Rattle.std.specs.Prelude.{◌≡◌, ℕ, false, ◌&&◌, ◌||◌, length};
ghost use Rattle.events.specs.Members.{member, named};
ghost use Rattle.rules.specs.Cells.{cell};

use events::EventSet;

// A set of events for each event.
#[derive(Drop)]
pub(crate) struct Rows {
    sets: [EventSet; 64],
    ghost long: { length sets ≡ 64 },
}

impl Rows {
    pub(crate) fn new() -> Rows
        ensures { (a b : ℕ) → cell result.sets a b ≡ false }
    {
        Rows {
            sets: [EventSet::empty(); 64],
        }
    }

    // The set of the event, which is empty past the last.
    pub(crate) fn row(&self, event: u8) -> EventSet
        ensures { (k : ℕ) → member result.bits k ≡ cell self.now.sets event k }
    {
        match self.sets.get(event as usize) {
            Some(set) => *set,
            None => EventSet::empty(),
        }
    }

    // Puts `other` into the set of the event.
    pub(crate) fn add(&mut self, event: u8, other: u8)
        ensures { (a b : ℕ) → cell self.new.sets a b ≡ (cell self.old.sets a b || (named 64 event a && named 64 other b)) }
    {
        if event < 64 {
            self.sets[event as usize] = self.sets[event as usize].with(other);
        }
    }
}

ghost use Rattle.std.specs.Prelude.{◌≡◌, ℕ, []};
ghost use Rattle.lines.specs.Lists.{none-outside};
ghost use Rattle.memory_line.specs.Held.{held_at, waits_in};
ghost use Rattle.std.proofs.Common.{lit≤};

use arrayvec::ArrayVec;
use lines::line::{Full, Line, place};
use lines::message::Message;
use std::array;

/// A line in memory, with room for three messages on each pair.
#[derive(Drop)]
pub struct MemoryLine {
    pairs: [ArrayVec<Message, 3>; 64],
}

impl MemoryLine {
    /// A line on which nothing waits.
    pub fn new() -> MemoryLine
        ensures { (a b : ℕ) → waits_in result.pairs a b ≡ [] }
    {
        MemoryLine {
            pairs: array::from_fn(|_| ArrayVec::new()),
        }
    }
}

impl Line for MemoryLine {
    ghost waits = { λ s. waits_in s.pairs };

    ghost sound = { λ _. Unit {0} };

    ghost beside = { λ _ _. Unit {0} };

    ghost most = { 3 };

    fn limit(&self) -> usize {
        3
    }

    fn count(&self, from: u8, to: u8) -> usize {
        match place(from, to) {
            Some(pair) => self.pairs[pair].len(),
            None => 0,
        }
    }

    fn post(&mut self, from: u8, to: u8, message: Message) -> Result<(), Full> {
        let pair = place(from, to).ok_or(Full)?;
        self.pairs[pair].try_push(message).map_err(|_| Full)
    }

    fn take(&mut self, from: u8, to: u8) -> Option<Message> {
        let pair = place(from, to)?;
        self.pairs[pair].pop_at(0)
    }

    ghost enough = { lit≤ tt };

    ghost outside = { λ s. none-outside (held_at s.pairs) };
}

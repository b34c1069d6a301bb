ghost use Rattle.protocol.specs.Outcomes.{entries};
ghost use Rattle.std.specs.Prelude.{◌≡◌};

use rules::decision::Decision;

/// The answer to a request: the event and what was decided.
#[derive(Clone, Copy)]
pub struct Answer {
    pub event: u8,
    pub decision: Decision,
}

/// The answers that a settle gives: the first `count` entries of the table.
// No `ArrayVec`: an outcome is `Copy`, and an `ArrayVec` is not.
#[derive(Clone, Copy)]
pub struct Answers {
    pub table: [Answer; 8],
    pub count: usize,
}

impl Answers {
    /// The answers in order, as far as the table goes.
    pub fn as_slice(&self) -> &[Answer]
        ensures { result.now ≡ entries self.now }
    {
        &self.table[..self.count.min(8)]
    }
}

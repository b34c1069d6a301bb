// The members of a set one after another, lowest first.
ghost use Rattle.std.specs.Prelude.{count_ones};
ghost use Rattle.std.specs.Iterator.{at_most};
ghost use Rattle.events.specs.Members.{TakesLowest};

use crate::set::Set;
use crate::word::Word;

#[derive(Clone, Copy)]
pub struct Members<W> {
    pub rest: Set<W>,
}

impl<W: Word> Iterator for Members<W> {
    type Item = u8;

    ghost next_gives = { λ s r t. TakesLowest W.WIDTH (W.number s.rest.bits) r (W.number t.rest.bits) };

    ghost remaining = { λ s. at_most (count_ones (W.number s.rest.bits)) };

    fn next(&mut self) -> Option<u8> {
        let lowest = self.rest.lowest()?;
        self.rest = self.rest.without(lowest);
        Some(lowest)
    }
}

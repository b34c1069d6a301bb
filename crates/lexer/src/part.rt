ghost use Rattle.std.specs.Prelude.{◌≡◌, [], ◌∷◌, length, IfSome, MatchOption};
ghost use Rattle.lexer.specs.Parts.{Cut, StandIn};

use crate::bytes::find;

/// A part of a text, with its place in it.
#[derive(Clone, Copy)]
pub struct Part<'a> {
    pub at: usize,
    pub bytes: &'a [u8],
}

impl<'a> Part<'a> {
    /// The first byte and the part after it, if the part is not empty.
    pub(crate) fn split_first(self) -> Option<(&'a u8, Part<'a>)>
        ensures bytes { MatchOption result (length self.entry.bytes.now ≡ 0) (λ p. self.entry.bytes.now ≡ p.0.now ∷ p.1.bytes.now) }
        ensures places { IfSome result (λ p. StandIn self.entry self.entry.at (p.0.now ∷ []) × StandIn self.entry p.1.at p.1.bytes.now) }
    {
        let (first, bytes) = self.bytes.split_first()?;
        let at = self.at.saturating_add(1);
        Some((first, Part { at, bytes }))
    }

    /// The part before the byte's first place, and the part from there on.
    pub(crate) fn cut(self, byte: u8) -> (Part<'a>, Part<'a>)
        ensures cut { Cut byte self.entry.bytes.now result.0.bytes.now result.1.bytes.now }
        ensures places { StandIn self.entry result.0.at result.0.bytes.now × StandIn self.entry result.1.at result.1.bytes.now }
    {
        let (front, bytes) = self.bytes.split_at(find(self.bytes, byte));
        let at = self.at.saturating_add(front.len());
        (
            Part {
                at: self.at,
                bytes: front,
            },
            Part { at, bytes },
        )
    }
}

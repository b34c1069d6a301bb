ghost use Rattle.std.specs.Prelude.{◌≡◌, true, false, length, IfSome, IfOk, MatchOption, MatchResult, ◌==◌};
ghost use Rattle.std.specs.Iterator.{at_most};
ghost use Rattle.lexer.specs.Bytes.{clean};
ghost use Rattle.lexer.specs.Parts.{StandIn};
ghost use Rattle.lexer.specs.Words.{Begins, TakesWord, place_of, spelled};
ghost use Rattle.lexer.specs.declared.fault.ByteFault.TheVariants.{Unprintable};

use crate::bytes::check_bytes;
use crate::fault::ByteFault;
use crate::lines::Line;
use crate::numbers::is_number;
use crate::part::Part;
use std::alloc::{AllocError, Global};

/// A word of a text with its place in it: it borrows the text's bytes.
#[derive(Clone, Copy)]
pub enum Word<'a> {
    /// The first byte of a line.
    Letter { at: usize, byte: &'a u8 },
    /// A number: one to three digits without leading zero.
    Number { at: usize, digits: &'a [u8] },
    /// Any other word.
    Other { at: usize, bytes: &'a [u8] },
}

/// What is left of a line whose bytes are all printable: its words, each after one space.
#[derive(Drop)]
pub struct Words<'a> {
    rest: Part<'a>,
}

/// The words of the line, or a fault where it has a byte that is not printable.
impl<'a> TryFrom<Line<'a>> for Words<'a> {
    type Error = ByteFault;

    ghost try_from_gives = { λ line r. MatchResult r
        (λ w. (clean line.part.bytes.now ≡ true) × (w.rest ≡ line.part))
        (λ f. (f ≡ Unprintable line.number) × (clean line.part.bytes.now ≡ false)) };

    fn try_from(line: Line<'a>) -> Result<Words<'a>, ByteFault> {
        check_bytes(line)?;
        Ok(Words { rest: line.part })
    }
}

impl<'a> Words<'a> {
    /// Whether nothing of the line is left.
    pub fn is_empty(&self) -> bool
        ensures { result ≡ (length self.now.rest.bytes.now == 0) }
    {
        self.rest.bytes.is_empty()
    }

    /// The letter that begins the line, if the line is not empty.
    pub fn letter(&mut self) -> Option<Word<'a>>
        ensures word { MatchOption result (length self.old.rest.bytes.now ≡ 0) (λ w. Begins self.old.rest.bytes.now self.new.rest.bytes.now w) }
        ensures place { IfSome result (λ w. StandIn self.old.rest (place_of w) (spelled w) × StandIn self.old.rest self.new.rest.at self.new.rest.bytes.now) }
    {
        let at = self.rest.at;
        let (byte, line) = self.rest.split_first()?;
        self.rest = line;
        Some(Word::Letter { at, byte })
    }
}

impl<'a> Iterator for Words<'a> {
    type Item = Word<'a>;

    ghost next_gives = { TakesWord };

    ghost remaining = { λ s. at_most (length s.rest.bytes.now) };

    fn next(&mut self) -> Option<Word<'a>> {
        let (b' ', rest) = self.rest.split_first()? else {
            return None;
        };
        let (Part { at, bytes }, rest) = rest.cut(b' ');
        self.rest = rest;
        Some(if is_number(bytes) {
            Word::Number { at, digits: bytes }
        } else {
            Word::Other { at, bytes }
        })
    }
}

impl<'a> Word<'a> {
    /// Where the word stands in its text.
    pub fn place(self) -> usize
        ensures { result ≡ place_of self.entry }
    {
        match self {
            Word::Letter { at, .. } | Word::Number { at, .. } | Word::Other { at, .. } => at,
        }
    }

    /// The word's bytes in memory of their own, so that the text may be overwritten.
    pub fn copied(self, alloc: Global) -> Result<Vec<u8>, AllocError>
        ensures { IfOk result (λ v. v.items ≡ spelled self.entry) }
    {
        match self {
            Word::Letter { byte, .. } => Vec::from_slice(alloc, &[*byte]),
            Word::Number { digits, .. } => Vec::from_slice(alloc, digits),
            Word::Other { bytes, .. } => Vec::from_slice(alloc, bytes),
        }
    }
}

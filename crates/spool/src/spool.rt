ghost use Rattle.std.specs.Prelude.{◌≡◌, ℕ, ◌<◌, ◌≤◌, [], length, MatchResult};
ghost use Rattle.lines.specs.Lists.{none-outside};
ghost use Rattle.spool.specs.Refusals.{memory_number};
ghost use Rattle.spool.specs.Slots.{Cleared, ExactLayout, Laid, SameBeyond, slots, spooled};
ghost use Rattle.std.proofs.Common.{lit≤};

use crate::slot;
use lines::line::{Full, Line, place};
use lines::message::Message;

/// How many bytes a spool uses: 13 for each of 64 pairs.
pub const SIZE: usize = 832;

/// The refusal of memory that is too short for a spool.
#[derive(Clone, Copy)]
pub struct ShortMemory;

impl From<ShortMemory> for u8 {
    ghost from_gives = { λ refusal number. number ≡ memory_number refusal };

    /// The number of the refusal.
    fn from(_: ShortMemory) -> u8 {
        16
    }
}

/// A line in the first 832 bytes of lent memory, with room for four messages on each pair.
#[derive(Drop)]
pub struct Spool<'a> {
    bytes: &'a mut [u8],
}

/// Whether the memory is long enough for a spool.
pub fn check(bytes: &[u8]) -> Result<(), ShortMemory>
    ensures { MatchResult result (λ _. 832 ≤ length bytes.now) (λ _. length bytes.now < 832) }
{
    if bytes.len() < SIZE {
        return Err(ShortMemory);
    }
    Ok(())
}

impl<'a> Spool<'a> {
    /// A spool on which nothing waits, over memory that was checked. Over shorter memory, which is left as it is, it is not sound.
    pub fn new(bytes: &'a mut [u8]) -> Spool<'a>
        ensures empty { 832 ≤ length bytes.old → (a b : ℕ) → spooled result.bytes.now a b ≡ [] }
        ensures laid { 832 ≤ length bytes.old → Laid result.bytes.now }
        ensures cleared { 832 ≤ length bytes.old → Cleared result.bytes.now }
        ensures beyond { SameBeyond bytes.old result.bytes.now }
        ensures long { length result.bytes.now ≡ length bytes.old }
        ensures short { length bytes.old < 832 → result.bytes.now ≡ bytes.old }
        ensures lender { result.bytes.ghost_name ≡ bytes.entry.ghost_name }
    {
        if bytes.len() >= SIZE {
            slot::clear(bytes);
        }
        Spool { bytes }
    }
}

impl<'a> Line for Spool<'a> {
    ghost waits = { λ s. spooled s.bytes.now };

    ghost sound = { λ s. Laid s.bytes.now };

    ghost beside = { λ s t. (t.bytes.ghost_name ≡ s.bytes.ghost_name) × SameBeyond s.bytes.now t.bytes.now };

    ghost most = { 4 };

    fn limit(&self) -> usize {
        4
    }

    fn count(&self, from: u8, to: u8) -> usize {
        match place(from, to) {
            Some(pair) => self.bytes[13 * pair] as usize,
            None => 0,
        }
    }

    fn post(&mut self, from: u8, to: u8, message: Message) -> Result<(), Full> {
        let pair = place(from, to).ok_or(Full)?;
        slot::push(&mut self.bytes[13 * pair..13 * pair + 13], message)
    }

    fn take(&mut self, from: u8, to: u8) -> Option<Message> {
        let pair = place(from, to)?;
        slot::pop(&mut self.bytes[13 * pair..13 * pair + 13])
    }

    ghost enough = { lit≤ tt };

    ghost outside = { λ s. none-outside (slots s.bytes.now) };
}

/// The bytes of each pair are exactly its list in the layout of a spool, for proofs to cite.
pub fn bytes_are_the_lists()
    ensures { ExactLayout }
{}

ghost use Rattle.std.specs.Prelude.{◌≡◌, ℕ, ◌+◌, ◌*◌, ◌<◌, ◌≤◌, true, false, List, [], length, is_ok, MatchOption};
ghost use Rattle.lines.specs.Refusals.{post_number};
ghost use Rattle.lines.specs.Lists.{fits, inside, oldest, posted, taken};
ghost use Rattle.lines.specs.declared.message.Message.{Message as AnyMessage};

use crate::message::Message;

/// The refusal of a post: the list is full, or there is no such pair.
#[derive(Clone, Copy)]
pub struct Full;

// The number that a site's refusal of it has too.
impl From<Full> for u8 {
    ghost from_gives = { λ refusal number. number ≡ post_number refusal };

    /// The number of the refusal.
    fn from(_: Full) -> u8 {
        14
    }
}

/// The place 8a+b of a pair of station numbers 0 to 7, for lines that keep one list at each place.
pub fn place(from: u8, to: u8) -> Option<usize>
    ensures { MatchOption result (inside from to ≡ false) (λ p. (inside from to ≡ true) × (p ≡ 8 * from + to) × (p < 64)) }
{
    if from < 8 && to < 8 {
        Some(8 * from as usize + to as usize)
    } else {
        None
    }
}

/// A line holds, for each ordered pair of station numbers 0 to 7, the messages that wait from the first to the second.
// The calls take `from` and `to` apart: a struct of the two would be made at each call only to be taken apart in it.
pub trait Line {
    // The messages that wait from the first station to the second, oldest first.
    ghost waits: { Self → ℕ → ℕ → List AnyMessage };

    // Whether the line is in a state that its making gives and its calls keep.
    // It is no invariant of the type, since setting up cannot refuse: a spool is made over memory of any length, a site over any line.
    ghost sound: { Self → Type 0 };

    // Whether what lies around the line's memory is the same in both.
    ghost beside: { Self → Self → Type 0 };

    // How many messages may wait on a pair.
    ghost most: { ℕ };

    /// How many messages may wait on a pair.
    fn limit(&self) -> usize
        requires { sound self.now }
        ensures { result ≡ most };

    /// How many messages wait.
    fn count(&self, from: u8, to: u8) -> usize
        requires { sound self.now }
        ensures { result ≡ length (waits self.now from to) };

    /// Puts the message at the end of one list, unless that is full.
    fn post(&mut self, from: u8, to: u8, message: Message) -> Result<(), Full>
        requires { sound self.old }
        ensures kept { sound self.new }
        ensures beside { beside self.old self.new }
        ensures answer { is_ok result ≡ fits most (waits self.old) from to }
        ensures lists { (a b : ℕ) → waits self.new a b ≡ posted most (waits self.old) from to message a b };

    /// Removes the oldest message of one list and gives it.
    fn take(&mut self, from: u8, to: u8) -> Option<Message>
        requires { sound self.old }
        ensures kept { sound self.new }
        ensures beside { beside self.old self.new }
        ensures answer { result ≡ oldest (waits self.old from to) }
        ensures lists { (a b : ℕ) → waits self.new a b ≡ taken (waits self.old) from to a b };

    // A pair has room for three messages at least.
    ghost enough: { 3 ≤ most };

    // On what is no pair of a line nothing waits.
    ghost outside: { (s : Self) (a b : ℕ) → inside a b ≡ false → waits s a b ≡ [] };
}

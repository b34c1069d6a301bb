// Sets of events and of stations.
ghost use Rattle.std.specs.Prelude.{◌≡◌, ℕ, suc, ◌-◌, ◌^◌, ◌<◌, ◌≤◌, true, false, not, ◌&&◌, ◌||◌, if◌then◌else◌, Decides, MatchOption, count_ones, nat_lt};
ghost use Rattle.events.specs.Members.{member, named, NoMember, LowestMember};
ghost use Rattle.events.specs.Sets.{SetsByMembers, MembersBelow, EventSetsByMembers, EventsBelow, StationSetsByMembers, StationsBelow};

use crate::members::Members;
use crate::word::Word;

/// A set of numbers below the width of its word: the number `k` is a member if the bit `k` is 1.
#[derive(Clone, Copy)]
pub struct Set<W> {
    bits: W,
}

/// A set of at most 64 events.
pub type EventSet = Set<u64>;

/// A set of at most 8 stations.
pub type StationSet = Set<u8>;

impl<W: Word> Set<W> {
    pub fn empty() -> Set<W>
        ensures { NoMember (W.number result.bits) }
    {
        Set { bits: W::narrow(0) }
    }

    /// The numbers below `count`, of which a set has room for those below its width.
    pub fn first(count: u8) -> Set<W>
        ensures { (k : ℕ) → member (W.number result.bits) k ≡ (nat_lt k count && nat_lt k W.WIDTH) }
    {
        Set {
            bits: W::narrow(ones(count.min(W::WIDTH))),
        }
    }

    pub fn is_empty(self) -> bool
        ensures { Decides result (NoMember (W.number self.bits)) }
    {
        self.lowest().is_none()
    }

    pub fn has(self, number: u8) -> bool
        ensures { result ≡ member (W.number self.bits) number }
    {
        let bits = self.bits.widen();
        number < W::WIDTH && (bits >> number) & 1 == 1
    }

    pub fn with(self, number: u8) -> Set<W>
        ensures { (k : ℕ) → member (W.number result.bits) k ≡ (if named W.WIDTH number k then true else member (W.number self.bits) k) }
    {
        Set {
            bits: W::narrow(self.bits.widen() | bit::<W>(number)),
        }
    }

    /// `less` and `fewer` are for loops that take one member after another.
    pub fn without(self, number: u8) -> Set<W>
        ensures members { (k : ℕ) → member (W.number result.bits) k ≡ (if named W.WIDTH number k then false else member (W.number self.bits) k) }
        ensures less { member (W.number self.bits) number ≡ true → W.number result.bits < W.number self.bits }
        ensures fewer { member (W.number self.bits) number ≡ true → suc (count_ones (W.number result.bits)) ≡ count_ones (W.number self.bits) }
    {
        Set {
            bits: W::narrow(self.bits.widen() & !bit::<W>(number)),
        }
    }

    pub fn put(self, number: u8, present: bool) -> Set<W>
        ensures { (k : ℕ) → member (W.number result.bits) k ≡ (if named W.WIDTH number k then present else member (W.number self.bits) k) }
    {
        if present {
            self.with(number)
        } else {
            self.without(number)
        }
    }

    pub fn union(self, other: Set<W>) -> Set<W>
        ensures { (k : ℕ) → member (W.number result.bits) k ≡ (member (W.number self.bits) k || member (W.number other.bits) k) }
    {
        Set {
            bits: W::narrow(self.bits.widen() | other.bits.widen()),
        }
    }

    pub fn minus(self, other: Set<W>) -> Set<W>
        ensures { (k : ℕ) → member (W.number result.bits) k ≡ (member (W.number self.bits) k && not (member (W.number other.bits) k)) }
    {
        Set {
            bits: W::narrow(self.bits.widen() & !other.bits.widen()),
        }
    }

    pub fn common(self, other: Set<W>) -> Set<W>
        ensures { (k : ℕ) → member (W.number result.bits) k ≡ (member (W.number self.bits) k && member (W.number other.bits) k) }
    {
        Set {
            bits: W::narrow(self.bits.widen() & other.bits.widen()),
        }
    }

    /// `other` on the numbers of `on`, and this set elsewhere.
    pub fn overlaid(self, other: Set<W>, on: Set<W>) -> Set<W>
        ensures { (k : ℕ) → member (W.number result.bits) k ≡ (if member (W.number on.bits) k then member (W.number other.bits) k else member (W.number self.bits) k) }
    {
        self.minus(on).union(other.common(on))
    }

    /// The members that pass the test.
    pub fn filter<F: Fn(u8) -> bool>(self, test: F) -> Set<W>
        requires { F.IsAlwaysCallable test }
        ensures tested { (k : ℕ) → member (W.number self.bits) k ≡ true → F.post test k (member (W.number result.bits) k) }
        ensures no_more { (k : ℕ) → member (W.number self.bits) k ≡ false → member (W.number result.bits) k ≡ false }
    {
        let mut passing = Self::empty();
        // By number, and not from one member to the next: so no test waits for the one before.
        for number in 0..end(self.bits.widen()) {
            if self.has(number) && test(number) {
                passing = passing.with(number);
            }
        }
        passing
    }

    pub fn lowest(self) -> Option<u8>
        ensures { MatchOption result (NoMember (W.number self.bits)) (λ k. LowestMember W.WIDTH (W.number self.bits) k) }
    {
        let bits = self.bits.widen();
        if bits == 0 {
            return None;
        }
        Some(bits.trailing_zeros() as u8)
    }

    /// The members, lowest first.
    pub fn members(self) -> Members<W>
        ensures { result.rest ≡ self }
    {
        Members { rest: self }
    }
}

// No derive, which would not say that it is the empty set.
impl<W: Word> Default for Set<W> {
    ghost is_default = { λ s. NoMember (W.number s.bits) };

    fn default() -> Set<W> {
        Set::empty()
    }
}

// The bit of the number, or none if the word has no place for it.
fn bit<W: Word>(number: u8) -> u64
    ensures members { (k : ℕ) → member result k ≡ named W.WIDTH number k }
    ensures below { result < 2 ^ W.WIDTH }
{
    if number < W::WIDTH { 1 << number } else { 0 }
}

// The lowest number that is above all whose bits are 1.
fn end(bits: u64) -> u8
    ensures past { (k : ℕ) → result ≤ k → member bits k ≡ false }
    ensures few { result ≤ 64 }
{
    (64 - bits.leading_zeros()) as u8
}

// The number whose bits below `count` are 1.
fn ones(count: u8) -> u64
    requires { count ≤ 64 }
    ensures { result ≡ 2 ^ count - 1 }
{
    if count < 64 {
        (1 << count) - 1
    } else {
        u64::MAX
    }
}

/// The laws of every set, for proofs to cite; below, those of its two instances under names of their own.
pub fn sets_are_their_members<W: Word>()
    ensures same { SetsByMembers W.number }
    ensures below { MembersBelow W.number W.WIDTH }
{}

pub fn event_sets_are_their_members()
    ensures same { EventSetsByMembers }
    ensures below { EventsBelow }
{
    sets_are_their_members::<u64>()
}

pub fn station_sets_are_their_members()
    ensures same { StationSetsByMembers }
    ensures below { StationsBelow }
{
    sets_are_their_members::<u8>()
}

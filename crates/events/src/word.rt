// The words that hold the bits of a set.
ghost use Rattle.std.specs.Prelude.{◌≡◌, ℕ, ◌^◌, ◌<◌, ◌≤◌};
ghost use Rattle.std.proofs.Common.{rules};

/// An unsigned integer as a set of numbers below its width: a number is a member if its bit is 1.
pub trait Word: Copy {
    // How many bits a word has.
    const WIDTH: u8;

    ghost WIDTH: { ℕ };

    // The number that the bits of a word write.
    ghost number: { Self → ℕ };

    // The same number as a word of 64 bits, on which every operation works.
    fn widen(self) -> u64
        ensures number { result ≡ number self }
        ensures below { number self < 2 ^ WIDTH };

    // The word that is this number.
    fn narrow(wide: u64) -> Self
        requires { wide < 2 ^ WIDTH }
        ensures { number result ≡ wide };

    ghost width_law: { WIDTH ≤ 64 };

    ghost number_law: { (a b : Self) → number a ≡ number b → a ≡ b };
}

impl Word for u8 {
    const WIDTH: u8 = 8;

    ghost WIDTH = { 8 };

    ghost number = { λ n. n };

    ghost width_law = { Prim.search rules };

    ghost number_law = { λ a b e. e };

    fn widen(self) -> u64 {
        u64::from(self)
    }

    fn narrow(wide: u64) -> u8 {
        wide as u8
    }
}

impl Word for u64 {
    const WIDTH: u8 = 64;

    ghost WIDTH = { 64 };

    ghost number = { λ n. n };

    ghost width_law = { Prim.search rules };

    ghost number_law = { λ a b e. e };

    fn widen(self) -> u64 {
        self
    }

    fn narrow(wide: u64) -> u64 {
        wide
    }
}

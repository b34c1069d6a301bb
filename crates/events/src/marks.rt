// The marks of one event.
ghost use Rattle.std.specs.Prelude.{◌≡◌, ◌<◌, ◌≤◌, MatchResult};
ghost use Rattle.events.specs.Marks.{sum_of, unmarked, SumsTellMarks};

#[derive(Clone, Copy, Default)]
pub struct Marks {
    pub executed: bool,
    pub pending: bool,
    pub included: bool,
}

impl Marks {
    pub fn none() -> Marks
        ensures { result ≡ unmarked }
    {
        Marks::default()
    }
}

// The sum of the marks: executed counts 1, pending 2 and included 4.
impl From<Marks> for u8 {
    ghost from_gives = { λ m sum. (sum ≡ sum_of m) × (sum < 8) };

    fn from(marks: Marks) -> u8 {
        u8::from(marks.executed) + 2 * u8::from(marks.pending) + 4 * u8::from(marks.included)
    }
}

/// A number that is the sum of no marks.
#[derive(Clone, Copy)]
pub struct UnknownMarks(pub u16);

impl TryFrom<u16> for Marks {
    type Error = UnknownMarks;

    ghost try_from_gives = { λ sum r. MatchResult r (λ m. (sum ≤ 7) × (sum_of m ≡ sum)) (λ e. (7 < sum) × (e.0 ≡ sum)) };

    fn try_from(sum: u16) -> Result<Marks, UnknownMarks> {
        if sum > 7 {
            return Err(UnknownMarks(sum));
        }
        Ok(Marks {
            executed: sum % 2 == 1,
            pending: sum / 2 % 2 == 1,
            included: sum / 4 == 1,
        })
    }
}

/// The law of every sum, for proofs to cite.
pub fn sums_tell_marks_apart()
    ensures { SumsTellMarks }
{}

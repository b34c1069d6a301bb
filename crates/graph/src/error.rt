ghost use Rattle.graph.specs.Declarations.{error_number};
ghost use Rattle.graph.specs.declared.error.BuildError.TheVariants.{Invalid};
ghost use Rattle.std.specs.Prelude.{◌≡◌};

use crate::release::UnknownRelease;
use events::UnknownMarks;

/// Why a draft refuses a declaration, with the number of the refusal.
#[derive(Clone, Copy)]
pub enum BuildError {
    /// There is no room for another event or relation.
    Full = 6,
    /// The declaration breaks what every graph keeps of owners, ends, marks, numbers and milestones.
    Invalid = 3,
    /// The relation stands already, or an include meets an exclude.
    Conflict = 5,
}

impl From<BuildError> for u8 {
    ghost from_gives = { λ error number. number ≡ error_number error };

    fn from(error: BuildError) -> u8 {
        error as u8
    }
}

impl From<UnknownRelease> for BuildError {
    ghost from_gives = { λ _ error. error ≡ Invalid };

    fn from(_: UnknownRelease) -> BuildError {
        BuildError::Invalid
    }
}

impl From<UnknownMarks> for BuildError {
    ghost from_gives = { λ _ error. error ≡ Invalid };

    fn from(_: UnknownMarks) -> BuildError {
        BuildError::Invalid
    }
}

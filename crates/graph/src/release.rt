ghost use Rattle.graph.specs.Releases.{barred, release_number};
ghost use Rattle.std.specs.Prelude.{◌≡◌, not, MatchResult, ◌≢◌};

use crate::kind::Kind;

/// The release whose rules a graph follows.
#[derive(Clone, Copy)]
pub enum Release {
    Four = 4,
    Six = 6,
}

/// A number that no release has.
#[derive(Clone, Copy)]
pub struct UnknownRelease(pub u16);

impl Release {
    /// Whether graphs of the release may have relations of the kind: release 4 has no milestones.
    pub fn allows(self, kind: Kind) -> bool
        ensures { result ≡ not (barred self kind) }
    {
        match (self, kind) {
            (Release::Four, Kind::Milestone) => false,
            _ => true,
        }
    }
}

impl From<Release> for u8 {
    ghost from_gives = { λ release number. number ≡ release_number release };

    fn from(release: Release) -> u8 {
        release as u8
    }
}

impl TryFrom<u16> for Release {
    type Error = UnknownRelease;

    ghost try_from_gives = { λ number r. MatchResult r
        (λ release. release_number release ≡ number)
        (λ error. (number ≢ 4) × (number ≢ 6) × (error.0 ≡ number)) };

    fn try_from(number: u16) -> Result<Release, UnknownRelease> {
        match number {
            4 => Ok(Release::Four),
            6 => Ok(Release::Six),
            _ => Err(UnknownRelease(number)),
        }
    }
}

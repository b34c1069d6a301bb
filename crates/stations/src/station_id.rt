ghost use Rattle.protocol.specs.declared.refusal.Refusal.TheVariants.{UnknownStation};
ghost use Rattle.std.specs.Prelude.{◌≡◌, ℕ, ◌<◌, ◌≤◌, [], ◌∷◌, MatchResult};

use protocol::refusal::Refusal;
use std::marker::Model;

/// The number of a station, 0 to 7.
#[derive(Clone, Copy)]
pub struct StationId {
    number: u8,
}

/// The refusal of a number from 8 on.
#[derive(Clone, Copy)]
pub struct NoStation;

impl Model for StationId {
    ghost Value = { ℕ };

    ghost view = { λ id. id.number };

    ghost invariant = { λ id. id.number < 8 };

    ghost inverse = { λ number. record { number = number } };
}

impl StationId {
    /// Every station, lowest first.
    // Written out: the list is the promise.
    pub fn all() -> [StationId; 8]
        ensures { result ≡ 0 ∷ 1 ∷ 2 ∷ 3 ∷ 4 ∷ 5 ∷ 6 ∷ 7 ∷ [] }
    {
        [
            StationId { number: 0 },
            StationId { number: 1 },
            StationId { number: 2 },
            StationId { number: 3 },
            StationId { number: 4 },
            StationId { number: 5 },
            StationId { number: 6 },
            StationId { number: 7 },
        ]
    }
}

impl TryFrom<u8> for StationId {
    type Error = NoStation;

    ghost try_from_gives = { λ number r. MatchResult r (λ id. (number < 8) × (id ≡ number)) (λ _. 8 ≤ number) };

    fn try_from(number: u8) -> Result<StationId, NoStation> {
        if number < 8 {
            Ok(StationId { number })
        } else {
            Err(NoStation)
        }
    }
}

impl From<NoStation> for Refusal {
    ghost from_gives = { λ _ refusal. refusal ≡ UnknownStation };

    fn from(_: NoStation) -> Refusal {
        Refusal::UnknownStation
    }
}

impl From<StationId> for u8 {
    ghost from_gives = { λ id number. (number ≡ id) × (number < 8) };

    fn from(id: StationId) -> u8 {
        id.number
    }
}

impl From<StationId> for usize {
    ghost from_gives = { λ id number. (number ≡ id) × (number < 8) };

    fn from(id: StationId) -> usize {
        usize::from(id.number)
    }
}

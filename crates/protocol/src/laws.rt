// The laws of sites, for proofs to cite.
ghost use Rattle.protocol.specs.EventSets.{SetsHold};
ghost use Rattle.protocol.specs.Promise.{Determined, Kept};

/// The promise holds of a closed site, and lasts by each call that is served.
#[tactic(auto, using(crate::proofs::Kept::kept))]
pub fn promises_are_kept()
    ensures { Kept }
{}

/// The outcomes are a function of the calls.
pub fn outcomes_are_determined()
    ensures { Determined }
{}

/// The set of the events of which something holds has exactly these members.
#[tactic(auto, using(crate::proofs::EventSets::sets_hold))]
pub fn sets_hold_what_passes()
    ensures { SetsHold }
{}

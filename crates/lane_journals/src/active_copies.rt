//! The fact on active nodes, which holds of every legal journal; no function here does anything.

ghost use Rattle.lane_journals.specs.ActiveCopies.{InAll, ActiveIsComplete, OneGetsActivate, RegionIsActive, RegionGetsNewer};

/// An active node is a complete member; at most one node gets an Activate of a key under one version;
/// the region of a node is active on it, and what it holds there only gets newer.
pub fn one_active_copy()
    ensures active { InAll (λ acks P J. ActiveIsComplete J) }
    ensures activated { InAll (λ acks P J. OneGetsActivate J) }
    ensures region { InAll (λ acks P J. RegionIsActive J) }
    ensures newer { InAll RegionGetsNewer }
{}

ghost use Rattle.std.specs.Prelude.{◌≡◌, ◌+◌, List, [], ◌∷◌, ◌++◌, false, None, length, refl};
ghost use Rattle.carriers.specs.Fates.{delivered};

use crate::carrier::{Carrier, Carriers};
use crate::fate::Fate;
use std::alloc::Global;
use std::marker::Model;
use value_lists::NoMemory;

/// Delivers every message.
#[derive(Drop)]
pub struct PerfectCarrier {
    given: u64,
}

impl Model for PerfectCarrier {
    ghost use Rattle.std.specs.Prelude.{ℕ};

    ghost Value = { ℕ };

    ghost view = { λ c. c.given };
}

impl PerfectCarrier {
    /// A carrier that gave no fate.
    pub fn new() -> PerfectCarrier
        ensures { result ≡ 0 }
    {
        PerfectCarrier { given: 0 }
    }
}

impl Carrier for PerfectCarrier {
    ghost takes_plans = { λ _. false };

    ghost given = { delivered };

    ghost planned = { λ _. [] };

    ghost faults = { λ _. 0 };

    ghost last = { None };

    #[tactic(auto, using(crate::proofs::PlanLaws::length_delivered))]
    fn fate(&mut self, _number: u64) -> Fate {
        self.given += 1;
        Fate::Deliver
    }

    fn plan(&mut self, _fates: &[Fate]) -> Result<bool, NoMemory> {
        Ok(false)
    }

    ghost unplanned = { λ _ _. refl };
}

/// Makes carriers that deliver every message.
#[derive(Drop)]
pub struct PerfectCarriers;

impl Carriers for PerfectCarriers {
    type One = PerfectCarrier;

    ghost plans = { λ _ _. [] };

    fn make(&mut self, _alloc: Global, _lane: u8) -> Result<PerfectCarrier, NoMemory> {
        Ok(PerfectCarrier::new())
    }
}

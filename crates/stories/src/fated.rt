ghost use Rattle.std.specs.Prelude.{◌==◌, [], if◌then◌else◌};

use carriers::{Carrier, Carriers, Fate, PlanCarrier};
use std::alloc::Global;
use value_lists::NoMemory;

/// Makes carriers of which that of lane 0 has these fates planned.
#[derive(Drop)]
pub struct FirstLaneFates {
    fates: Vec<Fate>,
}

impl FirstLaneFates {
    pub fn new(fates: Vec<Fate>) -> FirstLaneFates {
        FirstLaneFates { fates }
    }
}

impl Carriers for FirstLaneFates {
    type One = PlanCarrier;

    ghost plans = { λ c lane. if lane == 0 then c.fates.items else [] };

    fn make(&mut self, alloc: Global, lane: u8) -> Result<PlanCarrier, NoMemory> {
        let mut carrier = PlanCarrier::new(alloc);
        if lane != 0 {
            return Ok(carrier);
        }
        carrier.plan(&self.fates)?;
        Ok(carrier)
    }
}

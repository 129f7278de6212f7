ghost use Rattle.std.specs.Prelude.{◌≡◌, ℕ, ◌+◌, List, [], ◌∷◌, ◌++◌, length, Bool, false, Option, IfOk, OnErr};
ghost use Rattle.carriers.specs.Fates.{CountsFault, planned_with};
ghost use Rattle.carriers.specs.declared.fate.Fate.{Fate};

use crate::fate::Fate;
use std::alloc::Global;
use value_lists::NoMemory;

/// Gives each message of a lane its fate.
pub trait Carrier {
    /// Whether it takes plans.
    ghost takes_plans: { Self → Bool };

    /// The fates that it gave, in order.
    ghost given: { Self → List Fate };

    /// The fates that were planned, in order, given or not.
    ghost planned: { Self → List Fate };

    /// How many fates weren't `Deliver`.
    ghost faults: { Self → ℕ };

    /// The number of faults that is counted last, where there is one.
    ghost last: { Option ℕ };

    /// The fate of the message of this number, the next one.
    fn fate(&mut self, number: u64) -> Fate
        requires next { number ≡ length (given self.old) + 1 }
        ensures given { given self.new ≡ given self.old ++ result ∷ [] }
        ensures count { CountsFault last (faults self.old) (faults self.new) result }
        ensures planned { planned self.new ≡ planned self.old }
        ensures kind { takes_plans self.new ≡ takes_plans self.old };

    /// Plans the fates of the coming messages, behind those that are planned; `false` exactly where it takes no plans.
    fn plan(&mut self, fates: &[Fate]) -> Result<bool, NoMemory>
        ensures taken { IfOk result (λ taken. taken ≡ takes_plans self.old) }
        ensures planned { IfOk result (λ taken. planned self.new ≡ planned_with taken (planned self.old) fates.now) }
        ensures err { OnErr result (planned self.new ≡ planned self.old) }
        ensures given { given self.new ≡ given self.old }
        ensures count { faults self.new ≡ faults self.old }
        ensures kind { takes_plans self.new ≡ takes_plans self.old };

    /// No fate is planned of a carrier that takes no plans.
    ghost unplanned: { (carrier : Self) → takes_plans carrier ≡ false → planned carrier ≡ [] };
}

/// Makes the carrier of each lane.
pub trait Carriers {
    /// The carrier of one lane.
    type One: Carrier + Drop;

    /// The fates that are planned for each lane from the start.
    ghost plans: { Self → ℕ → List Fate };

    /// The carrier of a lane, which gave no fate yet.
    fn make(&mut self, alloc: Global, lane: u8) -> Result<Self::One, NoMemory>
        ensures new { IfOk result (λ one. Self.One.given one ≡ []) }
        ensures planned { IfOk result (λ one. Self.One.planned one ≡ plans self.old lane) }
        ensures same { (other : ℕ) → plans self.new other ≡ plans self.old other };
}

ghost use Rattle.std.specs.Prelude.{◌≡◌, ℕ, ◌+◌, ◌^◌, ◌<◌, ◌≤◌, List, [], ◌∷◌, ◌++◌, length, drop, true, None, IfOk, OnOk, OnErr, nat_lt, if◌then◌else◌};
ghost use Rattle.carriers.specs.Fates.{Plan, CountsFault, is_fault, planned_with, first_of, after_fate, after_plan};
ghost use Rattle.carriers.specs.Plans.{fates_of, numbered};

use crate::carrier::{Carrier, Carriers};
use crate::fate::Fate;
use std::alloc::Global;
use std::marker::Model;
use value_lists::NoMemory;

/// A planned fate with the number of the message that gets it.
#[derive(Clone, Copy, PartialEq, Eq)]
pub struct Planned {
    pub number: u64,
    pub fate: Fate,
}

/// Gives each message the fate that is planned for it, and `Deliver` where none is.
#[derive(Drop)]
pub struct PlanCarrier {
    plans: Vec<Planned>,
    /// How many of the planned fates were given.
    spent: usize,
    /// How many fates were given.
    given: u64,
    faults: u64,
}

impl Model for PlanCarrier {
    ghost use Rattle.carriers.specs.Fates.{Plan};

    ghost Value = { Plan };

    ghost use Rattle.std.specs.Prelude.{drop};
    ghost use Rattle.carriers.specs.Plans.{given_of, fates_of, IsNumbered};

    ghost view = { λ c. record {
      given = given_of c.plans.items c.given;
      planned = fates_of c.plans.items;
      waiting = drop c.spent (fates_of c.plans.items);
      faults = c.faults;
    } };

    ghost invariant = { λ c. IsNumbered c.given c.spent c.faults c.plans.items };
}

/// The planned fate of a place, or `Deliver`.
fn fate_of(plans: &[Planned], place: usize) -> Fate
    ensures { result ≡ first_of (drop place (fates_of plans.now)) }
{
    if place < plans.len() {
        plans[place].fate
    } else {
        Fate::Deliver
    }
}

/// The place behind one, if there is something at it.
fn place_behind(place: usize, count: usize) -> usize
    ensures inside { place < count → result ≡ place + 1 }
    ensures outside { count ≤ place → result ≡ place }
{
    if place < count { place + 1 } else { place }
}

/// A count of faults after a fate.
fn counted(faults: u64, fate: Fate) -> u64
    requires { faults + 1 < 2 ^ 64 }
    ensures { result ≡ faults + (if is_fault fate then 1 else 0) }
{
    match fate {
        Fate::Deliver => faults,
        Fate::LoseRequest | Fate::LoseReply | Fate::Twice | Fate::Late(_) => faults + 1,
    }
}

/// Plans fates for the messages behind that of a number. After want of memory nothing has changed.
fn add_behind(plans: &mut Vec<Planned>, number: u64, fates: &[Fate]) -> Result<(), NoMemory>
    requires { number + length fates.now < 2 ^ 64 }
    ensures ok { OnOk result (plans.new.items ≡ plans.old.items ++ numbered number fates.now) }
    ensures err { OnErr result (plans.new.items ≡ plans.old.items) }
{
    plans.reserve(fates.len())?;
    let mut number = number;
    for fate in fates {
        number += 1;
        let Ok(()) = plans.push(Planned {
            number,
            fate: *fate,
        }) else {
            unreachable!();
        };
    }
    Ok(())
}

/// Whether so many further messages have numbers of 64 bits.
fn have_numbers(number: u64, count: usize) -> bool
    ensures { result ≡ nat_lt (number + count) (2 ^ 64) }
{
    count as u64 <= u64::MAX - number
}

impl PlanCarrier {
    /// A carrier that gave no fate and has none planned.
    pub fn new(alloc: Global) -> PlanCarrier
        ensures { result ≡ record { given = []; planned = []; waiting = []; faults = 0 } }
    {
        PlanCarrier {
            plans: Vec::new(alloc),
            spent: 0,
            given: 0,
            faults: 0,
        }
    }
}

/// Planned fates are given in order. Fates of messages past the last number, 2^64 - 1, find no room.
impl Carrier for PlanCarrier {
    ghost takes_plans = { λ _. true };

    ghost given = { λ c. c.given };

    ghost planned = { λ c. c.planned };

    ghost faults = { λ c. c.faults };

    ghost last = { None };

    fn fate(&mut self, number: u64) -> Fate
        requires next { number ≡ length self.old.given + 1 }
        ensures fate { result ≡ first_of self.old.waiting }
        ensures after { self.new ≡ after_fate self.old result }
        ensures given { self.new.given ≡ self.old.given ++ result ∷ [] }
        ensures count { CountsFault None self.old.faults self.new.faults result }
        ensures planned { self.new.planned ≡ self.old.planned }
    {
        let fate = fate_of(&self.plans, self.spent);
        self.spent = place_behind(self.spent, self.plans.len());
        self.given = number;
        self.faults = counted(self.faults, fate);
        fate
    }

    fn plan(&mut self, fates: &[Fate]) -> Result<bool, NoMemory>
        ensures taken { IfOk result (λ taken. taken ≡ true) }
        ensures after { OnOk result (self.new ≡ after_plan self.old fates.now) }
        ensures planned { IfOk result (λ taken. self.new.planned ≡ planned_with taken self.old.planned fates.now) }
        ensures err { OnErr result (self.new.planned ≡ self.old.planned) }
        ensures unchanged { OnErr result (self.new ≡ self.old) }
        ensures given { self.new.given ≡ self.old.given }
        ensures count { self.new.faults ≡ self.old.faults }
    {
        let waiting = self.plans.len() - self.spent;
        if !have_numbers(self.given, waiting) {
            return Err(NoMemory);
        }
        let number = self.given + waiting as u64;
        if !have_numbers(number, fates.len()) {
            return Err(NoMemory);
        }
        add_behind(&mut self.plans, number, fates)?;
        Ok(true)
    }

    ghost unplanned = { λ _ h. Prim.cc };
}

/// Makes carriers that take plans and have none yet.
#[derive(Drop)]
pub struct PlanCarriers;

impl Carriers for PlanCarriers {
    type One = PlanCarrier;

    ghost plans = { λ _ _. [] };

    fn make(&mut self, alloc: Global, _lane: u8) -> Result<PlanCarrier, NoMemory> {
        Ok(PlanCarrier::new(alloc))
    }
}

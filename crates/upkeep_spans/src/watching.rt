ghost use Rattle.std.specs.Prelude.{◌≡◌, ◌≢◌, ◌⊎◌, ◌≤◌, ◌+◌, true, false, List, [], ◌∷◌, ◌++◌, length, IfOk, OnErr};
ghost use Rattle.carriers.specs.declared.fate.Fate.TheVariants.{Late};
ghost use Rattle.carriers.specs.Fates.{CountsFault, planned_with};
ghost use Rattle.lane_journals.specs.KeptJournals.{past};
ghost use Rattle.lane_carriage.specs.Carriage.{IsCarried};
ghost use Rattle.lane_carriage.specs.Readers.{last_sent};
ghost use Rattle.upkeep_spans.specs.Spans.{earlier};
ghost use Rattle.upkeep_spans.specs.Causes.{IsCause};
ghost use Rattle.upkeep_spans.specs.Watches.{takes_plans, planned_in, known_from, KnowsAtOnce};
ghost use Rattle.upkeep_spans.specs.declared.answers.Upkeep.TheVariants.{NoMemory as Short};

use crate::answers::Upkeep;
use crate::scan::{cause, seen_behind};
use carriers::{Carrier, Fate};
use lane_journals::LaneEvent;
use std::alloc::Global;
use std::marker::Model;
use value_lists::NoMemory;

/// A carrier that gives the fates of another one, and remembers which messages are late and yet come right
/// behind their own sending: of these alone the events don't tell that they were late.
///
/// It remembers each of them, since the first may be lost at a stopped node: the first that was delivered is
/// then a later one. To give a fate takes no memory that could be missed: where there is no room for a number,
/// it isn't known of the messages up to that one, and `tell` says so.
#[derive(Drop)]
pub struct Watching<C: Carrier + Drop> {
    carrier: C,
    /// The numbers of those messages, rising.
    at_once: Vec<u64>,
    /// The last message of which it isn't known, for want of memory.
    unknown: Option<u64>,
}

impl<C: Carrier + Drop> Model for Watching<C> {
    ghost use Rattle.upkeep_spans.specs.Watches.{Watched, plans_of, known_from, KnowsAtOnce};

    ghost Value = { Watched };

    ghost view = { λ w. record {
      given = C.given w.carrier;
      plans = plans_of (C.takes_plans w.carrier) (C.planned w.carrier);
      faults = C.faults w.carrier;
    } };

    ghost invariant = { λ w. KnowsAtOnce (known_from w.unknown) w.at_once.items (C.given w.carrier) };
}

/// Whether a message of the fate is late, and comes right behind its own sending.
fn comes_at_once(fate: Fate) -> bool
    ensures yes { result ≡ true → fate ≡ Late 0 }
    ensures no { result ≡ false → fate ≢ Late 0 }
{
    match fate {
        Fate::Late(later) => later == 0,
        _ => false,
    }
}

/// Remembers the next message if it is late and comes at once. Where memory is wanting, it isn't known of any
/// up to this one.
fn remember(at_once: &mut Vec<u64>, unknown: &mut Option<u64>, number: u64, fate: Fate)
    ensures { (given : List _) → number ≡ length given + 1 → KnowsAtOnce (known_from unknown.old) at_once.old.items given
        → KnowsAtOnce (known_from unknown.new) at_once.new.items (given ++ fate ∷ []) }
{
    if !comes_at_once(fate) {
        return;
    }
    match at_once.push(number) {
        Ok(()) => {}
        Err(_) => *unknown = Some(number),
    }
}

/// Whether it isn't known of a message.
fn is_unknown(unknown: Option<u64>, number: u64) -> bool
    ensures { result ≡ false → known_from unknown ≤ number }
{
    match unknown {
        Some(last) => number <= last,
        None => false,
    }
}

impl<C: Carrier + Drop> Watching<C> {
    /// A carrier that watches one that gave no fate yet.
    pub fn new(alloc: Global, carrier: C) -> Watching<C>
        requires unused { C.given carrier ≡ [] }
        ensures given { result.given ≡ [] }
        ensures planned { planned_in result.plans ≡ C.planned carrier }
        ensures kind { takes_plans result.plans ≡ C.takes_plans carrier }
    {
        Watching {
            carrier,
            at_once: Vec::new(alloc),
            unknown: None,
        }
    }

    /// What an upkeep comes to, whose span is the events of the journal behind the first `from`; before it the
    /// last message was that of the number `sent`, or 0. Takes no memory; `NoMemory` only where memory was
    /// wanting to remember a message.
    pub fn tell(&self, journal: &[LaneEvent], from: usize, sent: u64) -> Upkeep
        requires inside { from ≤ length journal.now }
        requires carried { IsCarried self.now.given (past journal.now) }
        requires before { sent ≡ last_sent (earlier from (past journal.now)) }
        ensures { (result ≡ Short) ⊎ IsCause self.now.given from (past journal.now) result }
    {
        if is_unknown(self.unknown, sent) {
            return Upkeep::NoMemory;
        }
        cause(&seen_behind(journal, from, sent, &self.at_once))
    }
}

impl<C: Carrier + Drop> Carrier for Watching<C> {
    ghost use Rattle.upkeep_spans.specs.Watches.{unplanned};

    ghost takes_plans = { λ w. takes_plans w.plans };

    ghost given = { λ w. w.given };

    ghost planned = { λ w. planned_in w.plans };

    ghost faults = { λ w. w.faults };

    ghost last = { C.last };

    fn fate(&mut self, number: u64) -> Fate {
        let fate = self.carrier.fate(number);
        remember(&mut self.at_once, &mut self.unknown, number, fate);
        fate
    }

    fn plan(&mut self, fates: &[Fate]) -> Result<bool, NoMemory> {
        self.carrier.plan(fates)
    }

    ghost unplanned = { λ w h. unplanned w.plans h };
}

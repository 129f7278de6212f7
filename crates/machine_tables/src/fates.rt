//! The fates that carriers give, and the order in which late messages are taken.

use crate::table::shown;
use crate::texts::number;
use carriers::{Carrier, Carriers, Fate, PerfectCarriers, PlanCarriers};
use messages::{Body, LateList, Origin};
use std::alloc::Global;

/// A carrier with plans, where fates are planned before the first message and before the third.
fn planned(alloc: Global) -> Option<String> {
    let mut carrier = PlanCarriers.make(alloc, 0).ok()?;
    let first = carrier
        .plan(&[Fate::LoseReply, Fate::Deliver, Fate::Twice])
        .ok()?;
    let (one, two) = (carrier.fate(1), carrier.fate(2));
    let second = carrier.plan(&[Fate::Late(2)]).ok()?;
    let (three, four, five) = (carrier.fate(3), carrier.fate(4), carrier.fate(5));
    shown(alloc, &([first, second], [one, two, three, four, five]))
}

/// A perfect carrier, which takes no plans.
fn perfect(alloc: Global) -> Option<String> {
    let mut carrier = PerfectCarriers.make(alloc, 0).ok()?;
    let taken = carrier.plan(&[Fate::Twice]).ok()?;
    let first = carrier.fate(1);
    shown(alloc, &(taken, first))
}

/// Three late messages, two of which are due behind message 4, and the one sent between them behind message 3.
fn three_late(alloc: Global) -> Option<LateList> {
    let mut list = LateList::new(alloc);
    let origin = Origin {
        version: 1,
        lane: 0,
        sender: 0,
    };
    list.room().ok()?;
    list.keep(4, 1, origin.message(0, Body::Ask));
    list.room().ok()?;
    list.keep(3, 2, origin.message(0, Body::Ask));
    list.room().ok()?;
    list.keep(4, 3, origin.message(0, Body::Ask));
    Some(list)
}

/// The late messages of a session.
#[derive(Drop)]
pub struct Late {
    list: LateList,
}

impl Late {
    /// None waits.
    pub fn new(alloc: Global) -> Late {
        Late {
            list: LateList::new(alloc),
        }
    }

    /// Begins with three, and tells how many wait.
    fn begin(&mut self, alloc: Global) -> Option<String> {
        self.list = three_late(alloc)?;
        shown(alloc, &self.list.len())
    }

    /// The number of the message that is taken behind another one.
    fn take(&mut self, alloc: Global, now: &str) -> Option<String> {
        match self.list.take_due(number(now, 0)?) {
            Some(late) => shown(alloc, &late.number),
            None => String::from_str(alloc, "nothing").ok(),
        }
    }

    /// What comes of a line: one of two carriers, three late messages, or the one that is taken behind a message.
    pub fn say(&mut self, alloc: Global, verb: &str, rest: &str) -> Option<String> {
        match verb {
            "planned" => planned(alloc),
            "perfect" => perfect(alloc),
            "begin" => self.begin(alloc),
            "behind" => self.take(alloc, rest),
            _ => None,
        }
    }
}

ghost use Rattle.std.specs.Prelude.{◌≡◌};
ghost use Rattle.node_sets.specs.Members.{has_node};
ghost use Rattle.op_machine.specs.Nodes.{first_node, count_nodes};
ghost use Rattle.op_machine.specs.Outcomes.{node_or_zero, absent_of, heard_of, waits, counts, lacks, has_enough, has_active, too_few, stored, stored_outcome};

use crate::plan::Plan;
use crate::tally::Heard;
use messages::Outcome;
use node_sets::NodeSet;
use stamps::Stamp;

/// The least member of a set.
#[tactic(auto, using(crate::proofs::NodeLaws::first_is, crate::proofs::NodeLaws::none_is))]
fn first(set: NodeSet) -> Option<u8>
    ensures { result ≡ first_node (has_node set) }
{
    if set.len() == 0 {
        None
    } else {
        Some(set.at(0))
    }
}

/// The least member of a set, or 0.
fn least(set: NodeSet) -> u8
    ensures { result ≡ node_or_zero (first_node (has_node set)) }
{
    match first(set) {
        Some(node) => node,
        None => 0,
    }
}

/// The active node where it is in a set, else the set's least member, or 0.
pub fn absent_in(active: Option<u8>, missing: NodeSet) -> u8
    ensures { result ≡ absent_of active (has_node missing) }
{
    match active {
        Some(node) => {
            if missing.has(node) {
                node
            } else {
                least(missing)
            }
        }
        None => least(missing),
    }
}

/// Whether the active node, if there is one, is in a set.
fn has_active(active: Option<u8>, answered: NodeSet) -> bool
    ensures { result ≡ has_active active (has_node answered) }
{
    match active {
        Some(node) => answered.has(node),
        None => true,
    }
}

impl Plan {
    /// The least recipient of which nothing was told.
    pub fn waiting(&self, heard: &Heard) -> Option<u8>
        ensures { result ≡ first_node (waits self.now (heard_of heard.now)) }
    {
        first(self.recipients.difference(heard.told))
    }

    /// How many recipients answered.
    fn count(&self, heard: &Heard) -> u8
        ensures { result ≡ count_nodes (counts self.now (heard_of heard.now)) }
    {
        self.recipients.intersection(heard.answered).len()
    }

    /// The recipient to look for, of those that didn't answer.
    fn absent(&self, heard: &Heard) -> u8
        ensures { result ≡ absent_of self.now.active (lacks self.now (heard_of heard.now)) }
    {
        absent_in(self.active, self.recipients.difference(heard.answered))
    }

    /// Whether enough recipients answered.
    pub fn has_enough(&self, heard: &Heard) -> bool
        ensures { result ≡ has_enough self.now (heard_of heard.now) }
    {
        self.acks <= self.count(heard)
    }

    /// How the operation ends where too few answered.
    pub fn too_few(&self, heard: &Heard) -> Outcome
        ensures { result ≡ too_few self.now (heard_of heard.now) }
    {
        if heard.short {
            Outcome::NoMemory
        } else {
            Outcome::TooFew {
                answered: self.count(heard),
                needed: self.acks,
                absent: self.absent(heard),
            }
        }
    }

    /// How the operation ends once all was told of its Stores.
    fn stored(&self, stores: &Heard, stamp: Stamp) -> Outcome
        ensures { result ≡ stored self.now (heard_of stores.now) stamp }
    {
        if self.has_enough(stores) && has_active(self.active, stores.answered) {
            Outcome::Acked { stamp }
        } else {
            self.too_few(stores)
        }
    }

    /// How the operation ends by its Stores, if all was told of them.
    pub fn stored_outcome(&self, stores: &Heard, stamp: Stamp) -> Option<Outcome>
        ensures { let told = heard_of stores.now in
            result ≡ stored_outcome (first_node (waits self.now told)) self.now told stamp }
    {
        match self.waiting(stores) {
            Some(_) => None,
            None => Some(self.stored(stores, stamp)),
        }
    }
}

//! The changes of a view that a node tells of one message.

ghost use Rattle.std.specs.Prelude.{◌≡◌, ◌<◌, List, [], ◌∷◌, length, slice_index_or, IfOk};
ghost use Rattle.view_changes.specs.Deeds.{takes};
ghost use Rattle.service_layer.specs.Steps.{after_first, IsSplit};

use documents::SharedEntry;
use std::alloc::Global;
use std::collections::VecDeque;
use std::marker::Model;
use value_lists::NoMemory;
use view_changes::LaneChange;

/// Changes in order, without a place for a first one more.
#[derive(Drop)]
pub struct LaterChanges {
    changes: VecDeque<LaneChange>,
}

impl Model for LaterChanges {
    ghost use Rattle.std.specs.Prelude.{List};
    ghost use Rattle.std.specs.Coded.{coded_list};
    ghost use Rattle.view_changes.specs.declared.change.LaneChange.{LaneChange};
    ghost use Rattle.view_changes.specs.contracts.change.LaneChange as change;

    ghost Value = { List LaneChange };

    ghost coded = { coded_list change.the_row.coded };

    ghost view = { λ c. c.changes.items };
}

/// Changes in order. An adoption that comes first has a place of its own, so it needs no memory.
#[derive(Drop)]
pub struct ChangeList {
    first: Option<LaneChange>,
    later: LaterChanges,
}

impl Model for ChangeList {
    ghost use Rattle.std.specs.Prelude.{List};
    ghost use Rattle.std.specs.Coded.{coded_list};
    ghost use Rattle.view_changes.specs.declared.change.LaneChange.{LaneChange};
    ghost use Rattle.view_changes.specs.contracts.change.LaneChange as change;
    ghost use Rattle.service_layer.specs.Steps.{after_first};

    ghost Value = { List LaneChange };

    ghost coded = { coded_list change.the_row.coded };

    ghost view = { λ c. after_first c.first c.later };
}

impl LaterChanges {
    /// No change.
    pub fn none(alloc: Global) -> LaterChanges
        ensures { result ≡ [] }
    {
        LaterChanges {
            changes: VecDeque::new(alloc),
        }
    }

    /// One change.
    pub fn one(alloc: Global, change: LaneChange) -> Result<LaterChanges, NoMemory>
        ensures { IfOk result (λ list. list ≡ change ∷ []) }
    {
        let mut changes = VecDeque::with_capacity(alloc, 1)?;
        changes.push_back_reserved(change);
        Ok(LaterChanges { changes })
    }

    /// That a node took these entries, in their order.
    pub fn takes(
        alloc: Global,
        node: u8,
        entries: Vec<SharedEntry>,
    ) -> Result<LaterChanges, NoMemory>
        ensures { IfOk result (λ list. list ≡ takes node entries.items) }
    {
        let mut changes = VecDeque::with_capacity(alloc, entries.len())?;
        for entry in entries {
            changes.push_back(LaneChange::Take { node, entry })?;
        }
        Ok(LaterChanges { changes })
    }

    /// All of them, as a list.
    pub fn all(self) -> ChangeList
        ensures { result ≡ self }
    {
        ChangeList {
            first: None,
            later: self,
        }
    }

    /// All of them behind a first one.
    pub fn behind(self, first: LaneChange) -> ChangeList
        ensures { result ≡ first ∷ self }
    {
        ChangeList {
            first: Some(first),
            later: self,
        }
    }
}

impl ChangeList {
    /// A first change, if there is one, and others behind it.
    pub fn of(first: Option<LaneChange>, later: LaterChanges) -> ChangeList
        ensures { result ≡ after_first first later }
    {
        ChangeList { first, later }
    }

    /// How many changes there are.
    pub fn len(&self) -> usize
        ensures { result ≡ length self.now }
    {
        match &self.first {
            Some(_) => self.later.changes.len() + 1,
            None => self.later.changes.len(),
        }
    }

    /// A change, from 0 on.
    pub fn at(&self, index: usize) -> &LaneChange
        requires { index < length self.now }
        ensures { result.now ≡ slice_index_or self.now index result.now }
    {
        match &self.first {
            Some(first) => {
                if index == 0 {
                    first
                } else {
                    &self.later.changes[index - 1]
                }
            }
            None => &self.later.changes[index],
        }
    }

    /// The first change, and those behind it: `behind` puts it back, and `all` goes on without it. None where
    /// the list is empty.
    pub fn split_first(self) -> Option<(LaneChange, LaterChanges)>
        ensures { IsSplit self result }
    {
        let ChangeList { first, mut later } = self;
        if let Some(first) = first {
            return Some((first, later));
        }
        match later.changes.pop_front() {
            Some(first) => Some((first, later)),
            None => None,
        }
    }
}

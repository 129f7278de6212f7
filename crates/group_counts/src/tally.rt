ghost use Rattle.std.specs.Prelude.{◌≡◌, ◌+◌, ◌<◌, ℕ, [], length, IfOk};
ghost use Rattle.documents.specs.Fields.{Contents};
ghost use Rattle.group_counts.specs.Tallies.{told_of, told_with, told_outputs, told_group, next_values, is_counted, AreSmall};
ghost use Rattle.group_counts.specs.Figures.{AreFigures};

use crate::figures::{first_value, next_value};
use crate::slots::{Slot, number_at};
use doc_types::{FieldValue, OutputKind};
use query_groups::{Group, Output, OutputList};
use std::alloc::Global;
use std::marker::Model;
use value_lists::{NoMemory, TryCopy};

/// What is told so far of the documents of a group.
#[derive(Drop)]
pub struct Tally {
    count: u64,
    values: Vec<Option<i128>>,
}

impl Model for Tally {
    ghost use Rattle.group_counts.specs.Tallies.{Told, AreSmall};

    ghost Value = { Told };

    ghost view = { λ t. record { count = t.count; values = t.values.items } };

    ghost invariant = { λ t. AreSmall t.count t.values.items };
}

/// Outputs with a document more, of which each has its number.
fn take_values(values: &mut [Option<i128>], kinds: &[OutputKind], slots: &[Slot<'_>])
    requires small { AreSmall 9223372036854775807 values.old }
    requires same { length slots.now ≡ length kinds.now }
    ensures value { (d : Contents) → AreFigures kinds.now d slots.now → values.new ≡ next_values kinds.now d values.old }
    ensures small { (n : ℕ) → AreSmall n values.old → AreSmall (n + 1) values.new }
{
    let mut at = 0;
    while at < kinds.len() && at < values.len() {
        values[at] = next_value(&kinds[at], values[at], number_at(slots, at));
        at += 1;
    }
}

/// Outputs of no documents.
fn first_values(alloc: Global, kinds: &[OutputKind]) -> Result<Vec<Option<i128>>, NoMemory>
    ensures value { IfOk result (λ values. values.items ≡ (told_of kinds.now []).values) }
    ensures small { IfOk result (λ values. AreSmall 0 values.items) }
{
    let mut values = Vec::with_capacity(alloc, kinds.len())?;
    for kind in kinds {
        values.push(first_value(kind))?;
    }
    Ok(values)
}

/// Outputs with their values.
fn outputs_of(
    alloc: Global,
    kinds: &[OutputKind],
    values: &[Option<i128>],
) -> Result<Vec<Output>, NoMemory>
    ensures { IfOk result (λ outputs. outputs.items ≡ told_outputs kinds.now values.now) }
{
    let mut outputs = Vec::with_capacity(alloc, kinds.len())?;
    let mut at = 0;
    while at < kinds.len() && at < values.len() {
        outputs.push(Output {
            kind: kinds[at].copy(alloc)?,
            value: values[at],
        })?;
        at += 1;
    }
    Ok(outputs)
}

impl Tally {
    /// Of no documents.
    pub fn new(alloc: Global, kinds: &[OutputKind]) -> Result<Tally, NoMemory>
        ensures { IfOk result (λ tally. tally ≡ told_of kinds.now []) }
    {
        Ok(Tally {
            count: 0,
            values: first_values(alloc, kinds)?,
        })
    }

    /// A document more, of which each output has its number.
    pub fn take(&mut self, kinds: &[OutputKind], slots: &[Slot<'_>])
        requires few { self.old.count < 9223372036854775808 }
        requires same { length slots.now ≡ length kinds.now }
        ensures { (d : Contents) → AreFigures kinds.now d slots.now → self.new ≡ told_with kinds.now d self.old }
    {
        take_values(&mut self.values, kinds, slots);
        self.count += 1;
    }

    /// Whether there are any documents.
    pub fn is_counted(&self) -> bool
        ensures { result ≡ is_counted self.now }
    {
        self.count > 0
    }

    /// The group of these documents.
    pub fn group(
        &self,
        alloc: Global,
        kinds: &[OutputKind],
        value: FieldValue,
    ) -> Result<Group, NoMemory>
        ensures { IfOk result (λ group. group ≡ told_group kinds.now value self.now) }
    {
        Ok(Group {
            value,
            count: self.count,
            outputs: OutputList::of(outputs_of(alloc, kinds, &self.values)?),
        })
    }
}

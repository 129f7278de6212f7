ghost use Rattle.std.specs.Prelude.{◌≡◌, ◌≤◌, ◌<◌, ◌+◌, ◌++◌, ℤ, ℕ, List, [], map, length, IfOk, OnOk, OnErr};
ghost use Rattle.std.specs.List.Sorted.{IsStrictlySortedBy};
ghost use Rattle.std.specs.Ordering.{int_cmp, int_eq};
ghost use Rattle.indexmap.specs.IndexMap as table;
ghost use Rattle.indexmap.specs.IndexMap.{get_by_text};
ghost use Rattle.std.specs.String.{string_bytes};
ghost use Rattle.documents.specs.Fields.{Contents};
ghost use Rattle.doc_types.specs.declared.values.FieldValue.TheVariants.{Int, Text};
ghost use Rattle.group_counts.specs.Groups.{groups_of};
ghost use Rattle.group_counts.specs.Tallies.{told_group, counted_of};
ghost use Rattle.group_counts.specs.Gathered.{IsGathered, documents_at};

use crate::slots::first_slots;
use crate::taking::{place_all, take_all};
use crate::tallies::{keys_differ, sort_numbers, sort_texts};
use crate::tally::Tally;
use doc_types::{FieldValue, OutputKind};
use indexmap::IndexMap;
use match_views::Hits;
use query_groups::{Group, GroupBy, GroupList};
use query_text::Query;
use std::alloc::Global;
use std::marker::Model;
use value_lists::{NoMemory, TextValue};
use view_columns::Columns;

/// The groups of documents that come view by view.
#[derive(Drop)]
pub struct Groups<'a> {
    by: Option<&'a GroupBy>,
    type_name: &'a str,
    views: u8,
    numbers: IndexMap<i64, Tally>,
    texts: IndexMap<String, Tally>,
}

impl<'a> Model for Groups<'a> {
    ghost use Rattle.std.specs.Prelude.{◌*◌, option_map};
    ghost use Rattle.std.specs.Ordering.{int_eq};
    ghost use Rattle.indexmap.specs.IndexMap as table;
    ghost use Rattle.indexmap.specs.IndexMap.{get_by_text};
    ghost use Rattle.group_counts.specs.Tallies.{AreKept};
    ghost use Rattle.group_counts.specs.Gathered.{Gathered, gathered_as, outputs_by};

    ghost Value = { Gathered };

    ghost view = { λ g. gathered_as (option_map (λ by. by.now) g.by) g.views g.numbers g.texts };

    ghost invariant = { λ g. AreKept (outputs_by (option_map (λ by. by.now) g.by)) (g.views * 137438953472) (table.get int_eq g.numbers)
        × AreKept (outputs_by (option_map (λ by. by.now) g.by)) (g.views * 137438953472) (get_by_text g.texts) };
}

/// The groups of numbers, in their order.
fn push_numbers(
    alloc: Global,
    groups: &mut Vec<Group>,
    kinds: &[OutputKind],
    tallies: &IndexMap<i64, Tally>,
) -> Result<(), NoMemory>
    ensures { OnOk result (groups.new.items
        ≡ groups.old.items ++ map (λ e. told_group kinds.now (Int e.0) e.1) (counted_of tallies.now.entries)) }
{
    for (number, tally) in tallies {
        if tally.is_counted() {
            groups.push(tally.group(alloc, kinds, FieldValue::Int(*number))?)?;
        }
    }
    Ok(())
}

/// The groups of texts, in their order.
fn push_texts(
    alloc: Global,
    groups: &mut Vec<Group>,
    kinds: &[OutputKind],
    tallies: &IndexMap<String, Tally>,
) -> Result<(), NoMemory>
    ensures { OnOk result (groups.new.items
        ≡ groups.old.items ++ map (λ e. told_group kinds.now (Text (string_bytes e.0)) e.1) (counted_of tallies.now.entries)) }
{
    for (text, tally) in tallies {
        if tally.is_counted() {
            let value = FieldValue::Text(TextValue::of(String::from_str(alloc, text.as_str())?));
            groups.push(tally.group(alloc, kinds, value)?)?;
        }
    }
    Ok(())
}

impl<'a> Groups<'a> {
    /// The groups of no documents, as a query asks for them.
    pub fn new(alloc: Global, query: &'a Query) -> Groups<'a>
        ensures by { result.by ≡ query.now.group }
        ensures views { result.views ≡ 0 }
        ensures documents { IsGathered [] result }
    {
        Groups {
            by: query.group.as_ref(),
            type_name: query.type_name.text(),
            views: 0,
            numbers: IndexMap::new(alloc),
            texts: IndexMap::new(alloc),
        }
    }

    /// The documents of a view that `matches` found for the query come behind those that came before. A hit without a
    /// document counts as none. What a document of the query's type has is read from columns, each of which is lent
    /// once for the hits of a node. Takes for each document two looks at its value's tally.
    pub fn add<V: Columns>(&mut self, alloc: Global, view: &V, hits: &Hits) -> Result<(), NoMemory>
        requires views { self.old.views < 64 }

        // `matches` finds no more.
        requires hits { length hits.now ≤ 137438953472 }

        ensures by { self.new.by ≡ self.old.by }
        ensures views { OnOk result (self.new.views ≡ self.old.views + 1) }
        ensures documents { OnOk result ((docs : List Contents) → IsGathered docs self.old
            → IsGathered (docs ++ documents_at (V.seen view.now) hits.now) self.new) }
        ensures err { OnErr result (self.new ≡ self.old) }
    {
        let Some(by) = self.by else {
            self.views += 1;
            return Ok(());
        };
        let name = self.type_name;
        let hits = hits.items();
        let mut slots = first_slots(alloc, view, name, by.outputs.items())?;
        place_all(
            alloc,
            by,
            name,
            &mut self.numbers,
            &mut self.texts,
            view,
            hits,
        )?;
        keys_differ(&self.numbers, &self.texts);
        take_all(
            by,
            name,
            &mut self.numbers,
            &mut self.texts,
            view,
            hits,
            &mut slots,
        );
        keys_differ(&self.numbers, &self.texts);
        self.views += 1;
        Ok(())
    }

    /// The groups of the documents that came, rising by value.
    pub fn finish(mut self, alloc: Global) -> Result<GroupList, NoMemory>
        ensures { (docs : List Contents) → IsGathered docs self.entry
            → IfOk result (λ groups. groups ≡ groups_of self.entry.by docs) }
    {
        let mut groups = Vec::new(alloc);
        if let Some(by) = self.by {
            keys_differ(&self.numbers, &self.texts);
            sort_numbers(&mut self.numbers)?;
            sort_texts(&mut self.texts)?;
            push_numbers(alloc, &mut groups, by.outputs.items(), &self.numbers)?;
            push_texts(alloc, &mut groups, by.outputs.items(), &self.texts)?;
        }
        Ok(GroupList::of(groups))
    }
}

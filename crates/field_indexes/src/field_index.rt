ghost use Rattle.std.specs.Prelude.{◌≡◌, ◌<◌, ℕ, ℤ, List, None, true, [], length, if◌then◌else◌, IfNone, IfSome, OnOk, OnErr};
ghost use Rattle.std.specs.Option.{option_copied, option_map_or};
ghost use Rattle.std.specs.Int.Signed.{◌≤ℤ◌, ◌<ℤ◌};
ghost use Rattle.std.specs.List.{Contains};
ghost use Rattle.std.specs.FinMap as fin;
ghost use Rattle.doc_types.specs.Values.{kind_of};
ghost use Rattle.local_ids.specs.Rising.{IsRising, with_local};
ghost use Rattle.word_index.specs.Index.{list_of};
ghost use Rattle.attribute_columns.specs.Columns.{locals_with, empty_column, with_value, without_value, with_moved};
ghost use Rattle.field_indexes.specs.Words.{has_word, locals_having};

use crate::word_lists::{add_words, drop_words, move_words};
use crate::words::words_in;
use attribute_columns::Column;
use doc_types::{FieldType, FieldValue, TextList};
use local_ids::LocalMap;
use std::alloc::Global;
use std::marker::Model;
use value_lists::{NoMemory, TextValue};
use word_index::WordIndex;

/// One field of a node's documents.
#[derive(Drop)]
pub struct FieldIndex {
    column: Column,
    kept: LocalMap<TextList>,
    words: WordIndex,
}

impl Model for FieldIndex {
    ghost use Rattle.attribute_columns.specs.Columns.{Held, held_code};
    ghost use Rattle.field_indexes.specs.Kept.{AreWords};

    ghost Value = { Held };

    ghost coded = { held_code };

    ghost view = { λ f. f.column };

    ghost invariant = { λ f. AreWords f.column.values f.kept f.words };
}

/// The words of a document.
fn words_at(kept: &LocalMap<TextList>, local: u32) -> &[TextValue]
    ensures { result.now ≡ option_map_or (λ words. words) (fin.get kept.now local) [] }
{
    match kept.get(local) {
        Some(words) => words.items(),
        None => &[],
    }
}

/// A document has words that it lacked.
fn enter_words(
    alloc: Global,
    kept: &mut LocalMap<TextList>,
    words: &mut WordIndex,
    local: u32,
    own: TextList,
) -> Result<(), NoMemory>
    requires free { fin.get kept.old local ≡ None }
    requires rising { (word : List ℕ) → IsRising (list_of word words.old) }
    requires lack { (word : List ℕ) → has_word word own ≡ true → Contains (list_of word words.old) local → ⊥ }
    ensures kept { OnOk result (kept.new ≡ fin.insert kept.old local own) }
    ensures lists { OnOk result ((word : List ℕ) → list_of word words.new
        ≡ (if has_word word own then with_local local (list_of word words.old) else list_of word words.old)) }
    ensures kept_before { OnErr result (kept.new ≡ kept.old) }
    ensures lists_before { OnErr result ((word : List ℕ) → list_of word words.new ≡ list_of word words.old) }
{
    kept.set(local, own)?;
    match add_words(alloc, words, words_at(kept, local), local) {
        Ok(()) => Ok(()),
        Err(fault) => {
            kept.clear(local);
            Err(fault)
        }
    }
}

impl FieldIndex {
    /// No values, of a field of this kind.
    pub fn new(alloc: Global, kind: FieldType) -> FieldIndex
        ensures { result ≡ empty_column kind }
    {
        FieldIndex {
            column: Column::new(alloc, kind),
            kept: LocalMap::new(alloc),
            words: WordIndex::new(alloc),
        }
    }

    /// Gives a document a value that has none, of which a copy is kept, with its words. Takes for each number and word a
    /// logarithm, and the move of the ids above in their lists.
    pub fn enter(&mut self, alloc: Global, local: u32, value: &FieldValue) -> Result<(), NoMemory>
        requires kind { kind_of value.now ≡ self.old.kind }
        requires free { fin.get self.old.values local ≡ None }
        ensures ok { OnOk result (self.new ≡ with_value local value.now self.old) }
        ensures err { OnErr result (self.new ≡ self.old) }
    {
        let own = words_in(alloc, value)?;
        self.column.set(alloc, local, value)?;
        match enter_words(alloc, &mut self.kept, &mut self.words, local, own) {
            Ok(()) => Ok(()),
            Err(fault) => {
                self.column.clear(local);
                Err(fault)
            }
        }
    }

    /// Takes the value of a document away, if it has one.
    pub fn leave(&mut self, local: u32)
        ensures { self.new ≡ without_value local self.old }
    {
        drop_words(&mut self.words, words_at(&self.kept, local), local);
        self.kept.clear(local);
        self.column.clear(local);
    }

    /// Gives a document without a value that of a greater local id, which then has none.
    pub fn move_down(&mut self, from: u32, to: u32)
        requires below { to < from }
        requires free { fin.get self.old.values to ≡ None }
        ensures { self.new ≡ with_moved from to self.old }
    {
        move_words(&mut self.words, words_at(&self.kept, from), from, to);
        self.kept.move_down(from, to);
        self.column.move_down(from, to);
    }

    /// The kind of the field.
    pub fn kind(&self) -> FieldType
        ensures { result ≡ self.now.kind }
    {
        self.column.kind()
    }

    /// The value of a document.
    pub fn value(&self, local: u32) -> Option<&FieldValue>
        ensures { option_copied result ≡ fin.get self.now.values local }
    {
        self.column.value(local)
    }

    /// The documents that have a word, in some item of a list.
    pub fn with_word(&self, word: &str) -> &[u32]
        ensures ids { result.now ≡ locals_having word.now self.now.values }
        ensures rising { IsRising result.now }
    {
        self.words.list(word)
    }

    /// The least number from one to another, both with them, that some document has as its value or as an item, and those
    /// that have it.
    pub fn next_value(&self, low: i64, high: i64) -> Option<(i64, &[u32])>
        ensures none { IfNone result ((q : ℤ) → low ≤ℤ q → q ≤ℤ high → locals_with q self.now.values ≡ []) }
        ensures from { IfSome result (λ r. low ≤ℤ r.0) }
        ensures to { IfSome result (λ r. r.0 ≤ℤ high) }
        ensures least { IfSome result (λ r. (q : ℤ) → low ≤ℤ q → q <ℤ r.0 → locals_with q self.now.values ≡ []) }
        ensures ids { IfSome result (λ r. r.1.now ≡ locals_with r.0 self.now.values) }
        ensures some { IfSome result (λ r. 0 < length r.1.now) }
    {
        self.column.next_value(low, high)
    }
}

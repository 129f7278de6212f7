ghost use Rattle.std.specs.Prelude.{◌≡◌, OnOk, OnErr};
ghost use Rattle.std.specs.FinMap as fin;
ghost use Rattle.local_ids.specs.Rising.{IsRising};
ghost use Rattle.word_index.specs.Index.{list_of, with_word, without_word, with_moved};

use crate::lists::{add_in, drop_in, list_in, move_in, tidy_in};
use std::alloc::Global;
use std::collections::HashMap;
use std::marker::Model;
use value_lists::NoMemory;

/// Of each word the documents that have it, by local id. Words are compared as bytes.
#[derive(Drop)]
pub struct WordIndex {
    lists: HashMap<String, Vec<u32>>,
}

impl Model for WordIndex {
    ghost use Rattle.std.specs.FinMap as fin;
    ghost use Rattle.std.specs.Coded.{coded_ℕ, coded_list};
    ghost use Rattle.word_index.specs.Index.{Index, IsIndex};
    ghost use Rattle.word_index.specs.Kept.{index_of};

    ghost Value = { Index };

    ghost coded = { fin.code (coded_list coded_ℕ) (coded_list coded_ℕ) };

    ghost view = { λ w. index_of (λ v. v.items) w.lists };

    ghost invariant = { λ w. IsIndex (index_of (λ v. v.items) w.lists) };
}

impl WordIndex {
    /// No words.
    pub fn new(alloc: Global) -> WordIndex
        ensures { result ≡ fin.empty }
    {
        WordIndex {
            lists: HashMap::new(alloc),
        }
    }

    /// A document has a word. Takes one look at the word, a binary search in its list, and the move of the ids above
    /// it by four bytes each; now and then, where there are too many words for the table, a look at each.
    pub fn add(&mut self, alloc: Global, token: &str, local: u32) -> Result<(), NoMemory>
        ensures ok { OnOk result (self.new ≡ with_word token.now local self.old) }
        ensures err { OnErr result (self.new ≡ self.old) }
    {
        add_in(alloc, &mut self.lists, token, local)
    }

    /// A document has a word no more. Takes what `add` takes, and no memory.
    pub fn remove(&mut self, token: &str, local: u32)
        ensures { self.new ≡ without_word token.now local self.old }
    {
        drop_in(&mut self.lists, token, local);
        tidy_in(&mut self.lists, token);
    }

    /// A document that has a word has another local id from now on. Takes what `add` takes, and no memory.
    pub fn move_id(&mut self, token: &str, from: u32, to: u32)
        ensures { self.new ≡ with_moved token.now from to self.old }
    {
        move_in(&mut self.lists, token, from, to);
        tidy_in(&mut self.lists, token);
    }

    /// The documents that have a word.
    pub fn list(&self, token: &str) -> &[u32]
        ensures ids { result.now ≡ list_of token.now self.now }
        ensures rising { IsRising result.now }
    {
        list_in(&self.lists, token)
    }
}

ghost use Rattle.std.specs.Prelude.{◌≡◌, ◌≤◌, ◌<◌, ◌+◌, ◌++◌, ◌∷◌, ◌*◌, ℕ, List, [], IfOk, OnOk, OnErr};

use group_counts::Groups;
use match_views::matches;
use query_groups::SearchAnswer;
use query_text::Query;
use std::alloc::Global;
use value_lists::NoMemory;
use view_columns::Columns;

/// How many keys there are, of 58 bits.
const ALL_KEYS: u64 = 288_230_376_151_711_744;

/// What a search found so far, over the views that were added.
#[derive(Drop)]
pub struct SearchSum<'a> {
    query: &'a Query,
    version: u32,
    count: u64,
    covered: u64,
    groups: Groups<'a>,

    // A view has no more than 2^37 hits.
    ghost few: { count ≤ groups.views * 137438953472 },
}

impl<'a> SearchSum<'a> {
    ghost use Rattle.view_changes.specs.Views.{View};
    ghost use Rattle.query_text.specs.declared.query.Query.{Query};
    ghost use Rattle.query_text.specs.Grammar.{said_of};
    ghost use Rattle.search_views.specs.Answers.{search_answer};
    ghost use Rattle.search_views.specs.Summed.{IsSummed};

    /// The sum of a query over no views.
    pub fn new(alloc: Global, query: &'a Query, version: u32) -> SearchSum<'a>
        ensures { IsSummed query.now version [] result }
    {
        SearchSum {
            query,
            version,
            count: 0,
            covered: 0,
            groups: Groups::new(alloc, query),
        }
    }

    /// The view of a lane more. Takes what `matches` takes, and for each document that it finds the logarithm of the
    /// groups.
    pub fn add<V: Columns>(&mut self, alloc: Global, view: &V) -> Result<(), NoMemory>
        requires { self.old.groups.views < 64 }
        ensures ok { OnOk result ((q : Query) (w : ℕ) (vs : List View) → IsSummed q w vs self.old
            → IsSummed q w (vs ++ V.seen view.now ∷ []) self.new) }
        ensures err { OnErr result ((self.new.query ≡ self.old.query) × (self.new.version ≡ self.old.version)
            × (self.new.count ≡ self.old.count) × (self.new.covered ≡ self.old.covered)
            × (self.new.groups ≡ self.old.groups)) }
        ensures views { self.new.groups.views ≤ self.old.groups.views + 1 }
    {
        let hits = matches(alloc, self.query, view, self.version)?;
        let many = hits.items().len();
        self.groups.add(alloc, view, &hits)?;
        self.count += many as u64;
        self.covered = self.covered.saturating_add(view.measure(self.version));
        Ok(())
    }

    /// The answer over the views that were added.
    pub fn finish(self, alloc: Global) -> Result<SearchAnswer, NoMemory>
        ensures { (q : Query) (w : ℕ) (vs : List View) → IsSummed q w vs self.entry
            → IfOk result (λ answer. answer ≡ search_answer (said_of q) w vs) }
    {
        Ok(SearchAnswer {
            version: self.version,
            count: self.count,
            covered: self.covered,
            full: self.covered == ALL_KEYS,
            groups: self.groups.finish(alloc)?,
        })
    }
}

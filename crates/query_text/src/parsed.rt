ghost use Rattle.std.specs.Prelude.{◌≡◌};
ghost use Rattle.query_text.specs.Grammar.{said_of};

use crate::query::Query;
use std::marker::Model;

/// A query, which a contract sees as what it says.
#[derive(Drop)]
pub struct Parsed {
    query: Query,
}

impl Model for Parsed {
    ghost use Rattle.query_text.specs.Codes.{said_code};
    ghost use Rattle.query_text.specs.Grammar.{Said, said_of};
    ghost use Rattle.query_groups.specs.contracts.groups.GroupBy as group;
    ghost use Rattle.query_text.specs.contracts.terms.Term as term;

    ghost Value = { Said };

    ghost coded = { said_code term.the_row.coded group.the_row.coded };

    ghost view = { λ p. said_of p.query };
}

impl Parsed {
    /// A query as what it says.
    pub fn of(query: Query) -> Parsed
        ensures { result ≡ said_of query }
    {
        Parsed { query }
    }

    /// The query that says so.
    pub fn query(self) -> Query
        ensures { said_of result ≡ self }
    {
        self.query
    }
}

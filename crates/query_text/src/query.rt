ghost use Rattle.std.specs.Prelude.{◌≡◌, IfOk};
ghost use Rattle.query_text.specs.Grammar.{Parses};
ghost use Rattle.query_text.specs.Truth.{matches_document};

use crate::expr::Expr;
use crate::reader::start;
use crate::truth::query_holds;
use conditions::{ReadFault, read};
use doc_types::{Language, Schema, TextValue};
use documents::Document;
use query_groups::GroupBy;
use std::alloc::Global;
use thiserror::Error;
use value_lists::NoMemory;

/// Why a text is no query.
#[derive(Clone, Copy, Debug, PartialEq, Eq, Error)]
pub enum QueryFault {
    /// No query goes on so under this schema.
    #[error("no query at {offset}")]
    BadQuery {
        /// How many bytes stand before the first token that is refused, before the place where no token
        /// can be read, or in the text where it ends too early.
        offset: u32,
    },
    #[error("out of memory")]
    NoMemory,
}

/// Which documents are found, and how they are grouped.
#[derive(Drop)]
pub struct Query {
    /// The type of the documents.
    pub type_name: TextValue,
    pub expr: Expr,
    pub group: Option<GroupBy>,
}

impl Query {
    /// The query that a text says under a schema, or where it is refused.
    pub fn parse(alloc: Global, text: &str, schema: &Schema) -> Result<Query, QueryFault>
        ensures { Parses schema.now text.now result }
    {
        match read(alloc, Language::Query, schema, start(), text) {
            Ok(parsed) => Ok(parsed.query()),
            Err(ReadFault::Refused { offset }) => Err(QueryFault::BadQuery { offset }),
            Err(ReadFault::NoMemory) => Err(QueryFault::NoMemory),
        }
    }

    /// Whether it is true of a document.
    pub fn holds(&self, alloc: Global, document: &Document) -> Result<bool, NoMemory>
        ensures { IfOk result (λ holds. holds ≡ matches_document self.now document.now) }
    {
        query_holds(alloc, self, document)
    }
}

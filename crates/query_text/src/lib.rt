//! Queries: which documents a search finds and what it says of their groups, as in Vespa's query language.
//!
//! ```text
//! query   = "select" "*" "from" type "where" expr [ "|" group ] [ ";" ]
//! expr    = *( term "or" ) term
//! term    = *( factor "and" ) factor
//! factor  = "!" "(" expr ")" / "(" expr ")" / "true" / "false" / field "contains" text / field rel integer
//! rel     = "=" / "<" / "<=" / ">" / ">="
//! group   = "all" "(" "group" "(" field ")" "each" "(" "output" "(" output *( "," output ) ")" ")" ")"
//! output  = "count" "(" ")" / ( "sum" / "min" / "max" ) "(" field ")"
//! ```
//!
//! `specs/Grammar.antt` says which texts are queries under a schema and what each says. A contract sees the
//! condition of a `Query` as a formula over terms (`said_of`), and `specs/Truth.antt` says of which
//! documents a query is true.
//!
//! ```text
//! let query = Query::parse(alloc, "select * from music where year > 1950 | all(group(year) each(output(count())))", &schema)?;
//! query.holds(alloc, &document)?
//! ```
#![tactic(auto)]

mod conditioned;
pub mod expr;
pub mod laws;
pub mod parsed;
mod parts;
pub mod query;
pub mod reader;
pub mod terms;
mod truth;

pub use expr::Expr;
pub use query::{Query, QueryFault};
pub use query_groups::{GroupBy, OutputKind, OutputKinds};
pub use terms::{Rel, Term};

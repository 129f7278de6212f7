ghost use Rattle.std.specs.Prelude.{◌≡◌, Some, option_map, IfOk};
ghost use Rattle.doc_types.specs.Reading.{token_of};
ghost use Rattle.conditions.specs.Machines.{run};
ghost use Rattle.conditions.specs.Views.{Goes, formula_of};
ghost use Rattle.query_groups.specs.Cues.{cue_of};
ghost use Rattle.query_text.specs.Grammar.{IsQuery};
ghost use Rattle.query_groups.specs.Grouping.{group_of};
ghost use Rattle.query_text.specs.Parts.{state_of};
ghost use Rattle.query_text.specs.Machine.{begin, heading, select_next, star_next, from_next, type_next, head_next, where_next, said_so, bar_next, whole_condition, asking_next, ended, grouping_next, query_step, query_says, query_of};

use crate::conditioned as condition;
use crate::conditioned::Condition;
use crate::expr::expr_of;
use crate::parsed::Parsed;
use crate::query::Query;
use crate::terms::Term;
use conditions::{Stop, TokenReader, Tree};
use doc_types::{Lexeme, Schema};
use query_groups::{
    Cue, GroupBy, Grouping, Opening, cue_of, group_next, group_says, has_groups, kept,
};
use std::alloc::Global;
use value_lists::{NoMemory, TextValue};

/// What was read of `select * from`.
#[derive(Clone, Copy, PartialEq, Eq)]
pub enum Head {
    Begin,
    Select,
    Star,
    From,
}

/// What was read of a query.
#[derive(Drop)]
pub enum Reading {
    Head(Head),
    Type(TextValue),
    Condition {
        type_name: TextValue,
        condition: Condition,
    },
    Group {
        type_name: TextValue,
        tree: Tree<Term>,
        group: Grouping,
    },
    /// All, up to its `;`.
    End {
        type_name: TextValue,
        tree: Tree<Term>,
        group: Option<GroupBy>,
    },
}

impl TokenReader for Reading {
    type Value = Parsed;

    ghost language = { λ types tokens said. IsQuery types tokens said };

    ghost reached = { λ types reading tokens. run (query_step types) begin tokens ≡ Some (query_of reading) };

    fn take(self, alloc: Global, schema: &Schema, token: Lexeme<'_>) -> Result<Reading, Stop> {
        step(self, alloc, schema, token)
    }

    fn value(self, alloc: Global, _schema: &Schema) -> Result<Parsed, Stop> {
        whole(self, alloc)
    }
}

/// No token was read yet.
pub fn start() -> Reading
    ensures { query_of result ≡ begin }
{
    Reading::Head(Head::Begin)
}

/// A token before the name of the type.
fn head_step(
    alloc: Global,
    schema: &Schema,
    place: Head,
    token: Lexeme<'_>,
) -> Result<Reading, Stop>
    ensures { Goes query_of result (head_next schema.now place (token_of token.entry)) }
{
    let cue = cue_of(&token);
    match place {
        Head::Begin => {
            if cue == Cue::Select && schema.has_types() {
                return Ok(Reading::Head(Head::Select));
            }
            Err(Stop::Refused)
        }
        Head::Select => match cue {
            Cue::Star => Ok(Reading::Head(Head::Star)),
            _ => Err(Stop::Refused),
        },
        Head::Star => match cue {
            Cue::From => Ok(Reading::Head(Head::From)),
            _ => Err(Stop::Refused),
        },
        Head::From => type_step(alloc, schema, token),
    }
}

/// The name of the type.
fn type_step(alloc: Global, schema: &Schema, token: Lexeme<'_>) -> Result<Reading, Stop>
    ensures { Goes query_of result (type_next schema.now (token_of token.entry)) }
{
    match token {
        Lexeme::Word(name) => {
            if !schema.has_type(name) {
                return Err(Stop::Refused);
            }
            Ok(Reading::Type(kept(alloc, name)?))
        }
        _ => Err(Stop::Refused),
    }
}

/// A token behind the name of the type.
fn where_step(alloc: Global, type_name: TextValue, cue: Cue) -> Result<Reading, Stop>
    ensures { Goes query_of result (where_next type_name cue) }
{
    match cue {
        Cue::Where => Ok(Reading::Condition {
            type_name,
            condition: condition::start(alloc)?,
        }),
        _ => Err(Stop::Refused),
    }
}

/// The groups begin behind a whole condition, where there is a field to group by.
fn bar_step(
    alloc: Global,
    schema: &Schema,
    type_name: TextValue,
    condition: Condition,
) -> Result<Reading, Stop>
    ensures { Goes query_of result (bar_next schema.now type_name (state_of condition)) }
{
    if !has_groups(schema, type_name.text()) {
        return Err(Stop::Refused);
    }
    let tree = condition::whole(condition, alloc)?;
    Ok(Reading::Group {
        type_name,
        tree,
        group: Grouping::Opening(Opening::Bar),
    })
}

/// The query ends behind a whole condition.
fn end_step(alloc: Global, type_name: TextValue, condition: Condition) -> Result<Reading, Stop>
    ensures { Goes query_of result (option_map (λ f. ended (said_so type_name None f))
        (whole_condition (state_of condition))) }
{
    let tree = condition::whole(condition, alloc)?;
    Ok(Reading::End {
        type_name,
        tree,
        group: None,
    })
}

/// A token within or behind the condition.
fn condition_step(
    alloc: Global,
    schema: &Schema,
    type_name: TextValue,
    condition: Condition,
    token: Lexeme<'_>,
) -> Result<Reading, Stop>
    ensures { Goes query_of result (asking_next schema.now type_name (state_of condition)
        (cue_of (token_of token.entry)) (token_of token.entry)) }
{
    match cue_of(&token) {
        Cue::Bar => bar_step(alloc, schema, type_name, condition),
        Cue::Semicolon => end_step(alloc, type_name, condition),
        _ => {
            let condition = condition::step(condition, alloc, schema, type_name.text(), token)?;
            Ok(Reading::Condition {
                type_name,
                condition,
            })
        }
    }
}

/// A token within or behind the groups.
fn group_step(
    alloc: Global,
    schema: &Schema,
    type_name: TextValue,
    tree: Tree<Term>,
    group: Grouping,
    token: Lexeme<'_>,
) -> Result<Reading, Stop>
    ensures { Goes query_of result (grouping_next schema.now type_name (formula_of tree) (group_of group)
        (cue_of (token_of token.entry)) (token_of token.entry)) }
{
    if cue_of(&token) == Cue::Semicolon {
        return match group_says(group) {
            Some(group) => Ok(Reading::End {
                type_name,
                tree,
                group: Some(group),
            }),
            None => Err(Stop::Refused),
        };
    }
    let group = group_next(alloc, schema, type_name.text(), group, token)?;
    Ok(Reading::Group {
        type_name,
        tree,
        group,
    })
}

/// What was read with one token more.
fn step(
    reading: Reading,
    alloc: Global,
    schema: &Schema,
    token: Lexeme<'_>,
) -> Result<Reading, Stop>
    ensures { Goes query_of result (query_step schema.now (query_of reading) (token_of token.entry)) }
{
    match reading {
        Reading::Head(place) => head_step(alloc, schema, place, token),
        Reading::Type(name) => where_step(alloc, name, cue_of(&token)),
        Reading::Condition {
            type_name,
            condition,
        } => condition_step(alloc, schema, type_name, condition, token),
        Reading::Group {
            type_name,
            tree,
            group,
        } => group_step(alloc, schema, type_name, tree, group, token),
        Reading::End { .. } => Err(Stop::Refused),
    }
}

/// The query that says so.
fn query_saying(
    alloc: Global,
    type_name: TextValue,
    tree: Tree<Term>,
    group: Option<GroupBy>,
) -> Result<Parsed, NoMemory>
    ensures { IfOk result (λ parsed. parsed ≡ said_so type_name group (formula_of tree)) }
{
    Ok(Parsed::of(Query {
        type_name,
        expr: expr_of(alloc, tree)?,
        group,
    }))
}

/// The query that was read, where it is whole.
fn whole(reading: Reading, alloc: Global) -> Result<Parsed, Stop>
    ensures { Goes (λ s. s) result (query_says (query_of reading)) }
{
    match reading {
        Reading::Condition {
            type_name,
            condition,
        } => {
            let tree = condition::whole(condition, alloc)?;
            Ok(query_saying(alloc, type_name, tree, None)?)
        }
        Reading::Group {
            type_name,
            tree,
            group,
        } => match group_says(group) {
            Some(group) => Ok(query_saying(alloc, type_name, tree, Some(group))?),
            None => Err(Stop::Refused),
        },
        Reading::End {
            type_name,
            tree,
            group,
        } => Ok(query_saying(alloc, type_name, tree, group)?),
        _ => Err(Stop::Refused),
    }
}

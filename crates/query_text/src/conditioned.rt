ghost use Rattle.std.specs.Prelude.{◌≡◌, ◌&&◌, [], ◌∷◌, IfOk, Some, is_some, option_map, option_and_then};
ghost use Rattle.doc_types.specs.Reading.{token_of};
ghost use Rattle.conditions.specs.declared.kinds.Negation.TheVariants as negation;
ghost use Rattle.conditions.specs.Formulas.{claim};
ghost use Rattle.conditions.specs.Kinds.{ends_operand};
ghost use Rattle.conditions.specs.Machine.{start, in_gap, in_atom, gap_step, behind_step, settle, other_step, outside, outside_step, within_step, operand, whole};
ghost use Rattle.conditions.specs.Views.{Goes, formula_of, gap_of, stack_of};
ghost use Rattle.query_text.specs.Parts.{says, terms, endings, place_of, condition_step, state_of};

use crate::parts::{Part, first, is_whole, next, says};
use crate::terms::Term;
use conditions::frames::Open;
use conditions::{
    Conditions, Kind, Negation, Place, Stop, Tree, behind_step, ends_operand, is_other, kind_of,
    whole_tree,
};
use doc_types::{Lexeme, Schema};
use std::alloc::Global;
use value_lists::NoMemory;

/// A condition that is read so far, within a term where there is a part of one.
#[derive(Drop)]
pub struct Condition {
    pub conditions: Conditions<Term>,
    pub part: Option<Part>,
}

/// No token was read yet.
pub fn start(alloc: Global) -> Result<Condition, NoMemory>
    ensures { IfOk result (λ condition. state_of condition ≡ start) }
{
    Ok(Condition {
        conditions: Conditions::start(alloc)?,
        part: None,
    })
}

/// The condition of a type behind one token more.
pub fn step(
    condition: Condition,
    alloc: Global,
    schema: &Schema,
    type_name: &str,
    token: Lexeme<'_>,
) -> Result<Condition, Stop>
    ensures { Goes state_of result (condition_step schema.now type_name.now (state_of condition)
        (token_of token.entry)) }
{
    let Condition { conditions, part } = condition;
    let kind = kind_of(Negation::Sign, &token);
    match part {
        None => outside(alloc, schema, type_name, conditions, kind, token),
        Some(part) => within(alloc, conditions, part, kind, token),
    }
}

/// A token outside of terms.
fn outside(
    alloc: Global,
    schema: &Schema,
    type_name: &str,
    conditions: Conditions<Term>,
    kind: Kind,
    token: Lexeme<'_>,
) -> Result<Condition, Stop>
    ensures { Goes state_of result (outside_step negation.Sign (terms schema.now type_name.now) kind
        (token_of token.entry) (gap_of conditions.place) (stack_of conditions.frames.items)) }
{
    if is_other(kind) {
        return begin(alloc, schema, type_name, conditions, token);
    }
    let conditions = conditions.step(alloc, Negation::Sign, kind)?;
    Ok(Condition {
        conditions,
        part: None,
    })
}

/// The first token of a term.
fn first_part(
    alloc: Global,
    schema: &Schema,
    type_name: &str,
    frames: Vec<Open<Term>>,
    token: Lexeme<'_>,
) -> Result<Condition, Stop>
    ensures { Goes state_of result (option_map (in_atom (stack_of frames.items))
        ((terms schema.now type_name.now).first (token_of token.entry))) }
{
    let part = first(alloc, schema, type_name, token)?;
    Ok(Condition {
        conditions: Conditions {
            frames,
            place: Place::Want,
        },
        part: Some(part),
    })
}

/// A term begins, where an operand is wanted.
fn begin(
    alloc: Global,
    schema: &Schema,
    type_name: &str,
    conditions: Conditions<Term>,
    token: Lexeme<'_>,
) -> Result<Condition, Stop>
    ensures { Goes state_of result (other_step (terms schema.now type_name.now) (token_of token.entry)
        (gap_of conditions.place) (stack_of conditions.frames.items)) }
{
    let Conditions { frames, place } = conditions;
    match place {
        Place::Want => first_part(alloc, schema, type_name, frames, token),
        _ => Err(Stop::Refused),
    }
}

/// Whether a token ends a part that is whole.
fn ends_here(kind: Kind, part: &Part) -> bool
    ensures { result ≡ (ends_operand kind && is_some (says part.now)) }
{
    ends_operand(kind) && is_whole(part)
}

/// A term goes on with one token more.
fn next_part(
    alloc: Global,
    conditions: Conditions<Term>,
    part: Part,
    token: Lexeme<'_>,
) -> Result<Condition, Stop>
    ensures { Goes state_of result (option_map (in_atom (stack_of conditions.frames.items))
        (endings.next part (token_of token.entry))) }
{
    let part = next(alloc, part, token)?;
    Ok(Condition {
        conditions,
        part: Some(part),
    })
}

/// A token behind a part of a term.
fn within(
    alloc: Global,
    conditions: Conditions<Term>,
    part: Part,
    kind: Kind,
    token: Lexeme<'_>,
) -> Result<Condition, Stop>
    ensures { Goes state_of result (within_step endings kind (token_of token.entry) part
        (stack_of conditions.frames.items)) }
{
    if ends_here(kind, &part) {
        return behind(alloc, conditions.frames, part, kind);
    }
    next_part(alloc, conditions, part, token)
}

/// What ends a term behind it.
fn behind_term(
    alloc: Global,
    frames: Vec<Open<Term>>,
    term: Term,
    kind: Kind,
) -> Result<Condition, Stop>
    ensures { Goes state_of result (option_map in_gap
        (behind_step kind (settle (claim term) (stack_of frames.items)))) }
{
    let conditions = behind_step(alloc, frames, kind, Tree::Atom(term))?;
    Ok(Condition {
        conditions,
        part: None,
    })
}

/// What ends a term behind a part.
fn behind(alloc: Global, frames: Vec<Open<Term>>, part: Part, kind: Kind) -> Result<Condition, Stop>
    ensures { Goes state_of result (option_map in_gap
        (option_and_then (λ a. behind_step kind (settle (claim a) (stack_of frames.items))) (says part))) }
{
    match says(part) {
        Some(term) => behind_term(alloc, frames, term, kind),
        None => Err(Stop::Refused),
    }
}

/// The tree of a part that is a whole term.
fn part_tree(part: Part) -> Option<Tree<Term>>
    ensures { option_map formula_of result ≡ option_map claim (says part) }
{
    match says(part) {
        Some(term) => Some(Tree::Atom(term)),
        None => None,
    }
}

/// The tree behind which a place outside of terms is.
fn place_tree(place: Place<Term>) -> Option<Tree<Term>>
    ensures { option_map formula_of result ≡ operand endings (outside (gap_of place)) }
{
    match place {
        Place::Behind(tree) => Some(tree),
        _ => None,
    }
}

/// The tree behind which a condition stands, where it is behind an operand.
fn operand(part: Option<Part>, place: Place<Term>) -> Option<Tree<Term>>
    ensures { option_map formula_of result ≡ operand endings (place_of part (gap_of place)) }
{
    match part {
        Some(part) => part_tree(part),
        None => place_tree(place),
    }
}

/// What the condition that was read says, where it is whole.
pub fn whole(condition: Condition, alloc: Global) -> Result<Tree<Term>, Stop>
    ensures { Goes formula_of result (whole endings (state_of condition)) }
{
    let Condition { conditions, part } = condition;
    let Conditions { frames, place } = conditions;
    match operand(part, place) {
        Some(tree) => whole_tree(alloc, frames, tree),
        None => Err(Stop::Refused),
    }
}

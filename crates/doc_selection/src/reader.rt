ghost use Rattle.std.specs.Prelude.{◌≡◌, ◌&&◌, [], ◌∷◌, IfOk, Some, is_some, option_map, option_and_then};
ghost use Rattle.doc_types.specs.Reading.{token_of};
ghost use Rattle.conditions.specs.Machines.{run};
ghost use Rattle.conditions.specs.declared.kinds.Negation.TheVariants as negation;
ghost use Rattle.conditions.specs.Formulas.{claim};
ghost use Rattle.conditions.specs.Kinds.{ends_operand};
ghost use Rattle.conditions.specs.Machine.{start, in_gap, in_atom, gap_step, behind_step, settle, other_step, outside, outside_step, within_step, operand, whole};
ghost use Rattle.conditions.specs.Views.{Goes, formula_of, gap_of, stack_of};
ghost use Rattle.doc_selection.specs.Grammar.{IsSelection};
ghost use Rattle.doc_selection.specs.Parts.{says, terms, endings, place_of, selection_step, state_of};

use crate::parts::{Part, first, is_whole, next, says};
use crate::selection::Selection;
use crate::terms::Term;
use conditions::frames::Open;
use conditions::{
    Conditions, Kind, Negation, Place, Stop, TokenReader, Tree, behind_step, ends_operand,
    is_other, kind_of, whole_tree,
};
use doc_types::{Lexeme, Schema};
use std::alloc::Global;
use value_lists::NoMemory;

/// A selection that is read so far, within a term where there is a part of one.
#[derive(Drop)]
pub struct Reader {
    pub conditions: Conditions<Term>,
    pub part: Option<Part>,
}

impl TokenReader for Reader {
    type Value = Selection;

    ghost language = { λ types tokens selection. IsSelection types tokens selection };

    ghost reached = { λ types reader tokens. run (selection_step types) start tokens ≡ Some (state_of reader) };

    fn take(self, alloc: Global, schema: &Schema, token: Lexeme<'_>) -> Result<Reader, Stop> {
        step(self, alloc, schema, token)
    }

    fn value(self, alloc: Global, _schema: &Schema) -> Result<Selection, Stop> {
        whole(self, alloc)
    }
}

/// No token was read yet.
pub fn start(alloc: Global) -> Result<Reader, NoMemory>
    ensures { IfOk result (λ reader. state_of reader ≡ start) }
{
    Ok(Reader {
        conditions: Conditions::start(alloc)?,
        part: None,
    })
}

/// The reader behind one token more.
fn step(reader: Reader, alloc: Global, schema: &Schema, token: Lexeme<'_>) -> Result<Reader, Stop>
    ensures { Goes state_of result (selection_step schema.now (state_of reader) (token_of token.entry)) }
{
    let Reader { conditions, part } = reader;
    let kind = kind_of(Negation::Word, &token);
    match part {
        None => outside(alloc, schema, conditions, kind, token),
        Some(part) => within(alloc, schema, conditions, part, kind, token),
    }
}

/// A token outside of terms.
fn outside(
    alloc: Global,
    schema: &Schema,
    conditions: Conditions<Term>,
    kind: Kind,
    token: Lexeme<'_>,
) -> Result<Reader, Stop>
    ensures { Goes state_of result (outside_step negation.Word (terms schema.now) kind (token_of token.entry)
        (gap_of conditions.place) (stack_of conditions.frames.items)) }
{
    if is_other(kind) {
        return begin(alloc, schema, conditions, token);
    }
    let conditions = conditions.step(alloc, Negation::Word, kind)?;
    Ok(Reader {
        conditions,
        part: None,
    })
}

/// The first token of a term.
fn first_part(
    alloc: Global,
    schema: &Schema,
    frames: Vec<Open<Term>>,
    token: Lexeme<'_>,
) -> Result<Reader, Stop>
    ensures { Goes state_of result (option_map (in_atom (stack_of frames.items))
        ((terms schema.now).first (token_of token.entry))) }
{
    let part = first(alloc, schema, token)?;
    Ok(Reader {
        conditions: Conditions {
            frames,
            place: Place::Want,
        },
        part: Some(part),
    })
}

/// A term begins, where an operand is wanted.
fn begin(
    alloc: Global,
    schema: &Schema,
    conditions: Conditions<Term>,
    token: Lexeme<'_>,
) -> Result<Reader, Stop>
    ensures { Goes state_of result (other_step (terms schema.now) (token_of token.entry)
        (gap_of conditions.place) (stack_of conditions.frames.items)) }
{
    let Conditions { frames, place } = conditions;
    match place {
        Place::Want => first_part(alloc, schema, frames, token),
        _ => Err(Stop::Refused),
    }
}

/// Whether a token ends a part that is whole.
fn ends_here(kind: Kind, part: &Part) -> bool
    ensures { result ≡ (ends_operand kind && is_some (says part.now)) }
{
    ends_operand(kind) && is_whole(part)
}

/// A term goes on with one token more.
fn next_part(
    alloc: Global,
    schema: &Schema,
    conditions: Conditions<Term>,
    part: Part,
    token: Lexeme<'_>,
) -> Result<Reader, Stop>
    ensures { Goes state_of result (option_map (in_atom (stack_of conditions.frames.items))
        ((terms schema.now).next part (token_of token.entry))) }
{
    let part = next(alloc, schema, part, token)?;
    Ok(Reader {
        conditions,
        part: Some(part),
    })
}

/// A token behind a part of a term.
fn within(
    alloc: Global,
    schema: &Schema,
    conditions: Conditions<Term>,
    part: Part,
    kind: Kind,
    token: Lexeme<'_>,
) -> Result<Reader, Stop>
    ensures { Goes state_of result (within_step (terms schema.now) kind (token_of token.entry) part
        (stack_of conditions.frames.items)) }
{
    if ends_here(kind, &part) {
        return behind(alloc, conditions.frames, part, kind);
    }
    next_part(alloc, schema, conditions, part, token)
}

/// What ends a term behind it.
fn behind_term(
    alloc: Global,
    frames: Vec<Open<Term>>,
    term: Term,
    kind: Kind,
) -> Result<Reader, Stop>
    ensures { Goes state_of result (option_map in_gap
        (behind_step kind (settle (claim term) (stack_of frames.items)))) }
{
    let conditions = behind_step(alloc, frames, kind, Tree::Atom(term))?;
    Ok(Reader {
        conditions,
        part: None,
    })
}

/// What ends a term behind a part.
fn behind(alloc: Global, frames: Vec<Open<Term>>, part: Part, kind: Kind) -> Result<Reader, Stop>
    ensures { Goes state_of result (option_map in_gap
        (option_and_then (λ a. behind_step kind (settle (claim a) (stack_of frames.items))) (says part))) }
{
    match says(part) {
        Some(term) => behind_term(alloc, frames, term, kind),
        None => Err(Stop::Refused),
    }
}

/// The tree of a part that is a whole term.
fn part_tree(part: Part) -> Option<Tree<Term>>
    ensures { option_map formula_of result ≡ option_map claim (says part) }
{
    match says(part) {
        Some(term) => Some(Tree::Atom(term)),
        None => None,
    }
}

/// The tree behind which a place outside of terms is.
fn place_tree(place: Place<Term>) -> Option<Tree<Term>>
    ensures { option_map formula_of result ≡ operand endings (outside (gap_of place)) }
{
    match place {
        Place::Behind(tree) => Some(tree),
        _ => None,
    }
}

/// The tree behind which a reader stands, where it is behind an operand.
fn operand(part: Option<Part>, place: Place<Term>) -> Option<Tree<Term>>
    ensures { option_map formula_of result ≡ operand endings (place_of part (gap_of place)) }
{
    match part {
        Some(part) => part_tree(part),
        None => place_tree(place),
    }
}

/// The selection that was read, where it is whole.
fn whole(reader: Reader, alloc: Global) -> Result<Selection, Stop>
    ensures { Goes (λ s. s) result (whole endings (state_of reader)) }
{
    let Reader { conditions, part } = reader;
    let Conditions { frames, place } = conditions;
    match operand(part, place) {
        Some(tree) => {
            let tree = whole_tree(alloc, frames, tree)?;
            Ok(Selection::of(alloc, tree)?)
        }
        None => Err(Stop::Refused),
    }
}

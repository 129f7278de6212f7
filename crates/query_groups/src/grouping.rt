ghost use Rattle.std.specs.Prelude.{◌≡◌, option_map};
ghost use Rattle.doc_types.specs.Reading.{token_of};
ghost use Rattle.conditions.specs.Views.{Goes};
ghost use Rattle.query_groups.specs.Cues.{cue_of};
ghost use Rattle.query_groups.specs.Grouping.{opening, listing, opening_next, field_step, opening_step, middle_next, middle_step, fold_if, want_next, argument_next, output_end, behind_next, listing_step, closing_next, closing_step, group_next, group_says, group_of, opened};

use crate::cues::{Cue, cue_of};
use crate::fields::{Fold, groups_by, is_counted, is_free, output_of, some_free, some_left};
use crate::groups::{GroupBy, kept};
use conditions::Stop;
use doc_types::{Lexeme, OutputKind, OutputKinds, Schema};
use std::alloc::Global;
use value_lists::TextValue;

/// What was read of `|all(group(`.
#[derive(Clone, Copy, PartialEq, Eq)]
pub enum Opening {
    Bar,
    All,
    AllOpen,
    Group,
    GroupOpen,
}

/// What was read of a field and `)each(output(` behind it.
#[derive(Clone, Copy, PartialEq, Eq)]
pub enum Middle {
    Field,
    Close,
    Each,
    EachOpen,
    Output,
}

/// What was read of an output.
#[derive(Drop)]
pub enum Listing {
    /// Nothing; one is wanted.
    Want,
    Count,
    Fold(Fold),
    Argument(Fold),
    /// All but its closing bracket.
    Closed(OutputKind),
    /// All; a comma or a bracket is wanted.
    Behind,
}

/// What was read of `)))`.
#[derive(Clone, Copy, PartialEq, Eq)]
pub enum Closing {
    Output,
    Each,
    All,
}

/// What was read of how documents are grouped.
#[derive(Drop)]
pub enum Grouping {
    Opening(Opening),
    Middle {
        field: TextValue,
        place: Middle,
    },
    Listing {
        field: TextValue,
        outputs: Vec<OutputKind>,
        place: Listing,
    },
    Closing {
        group: GroupBy,
        place: Closing,
    },
}

/// What is read with one token more of `|all(group(`.
fn opening_next(place: Opening, cue: Cue) -> Option<Opening>
    ensures { result ≡ opening_next place cue }
{
    match (place, cue) {
        (Opening::Bar, Cue::All) => Some(Opening::All),
        (Opening::All, Cue::Open) => Some(Opening::AllOpen),
        (Opening::AllOpen, Cue::Group) => Some(Opening::Group),
        (Opening::Group, Cue::Open) => Some(Opening::GroupOpen),
        _ => None,
    }
}

/// The field by which documents are grouped.
fn field_step(
    alloc: Global,
    schema: &Schema,
    type_name: &str,
    token: Lexeme<'_>,
) -> Result<Grouping, Stop>
    ensures { Goes group_of result (field_step schema.now type_name.now (token_of token.entry)) }
{
    match token {
        Lexeme::Word(field) => {
            if !groups_by(schema.field(type_name, field)) {
                return Err(Stop::Refused);
            }
            Ok(Grouping::Middle {
                field: kept(alloc, field)?,
                place: Middle::Field,
            })
        }
        _ => Err(Stop::Refused),
    }
}

/// A token of `|all(group(`.
fn opening_on(place: Opening, cue: Cue) -> Result<Grouping, Stop>
    ensures { Goes group_of result (option_map opening (opening_next place cue)) }
{
    match opening_next(place, cue) {
        Some(place) => Ok(Grouping::Opening(place)),
        None => Err(Stop::Refused),
    }
}

/// A token before the field.
fn opening_step(
    alloc: Global,
    schema: &Schema,
    type_name: &str,
    place: Opening,
    token: Lexeme<'_>,
) -> Result<Grouping, Stop>
    ensures { Goes group_of result (opening_step schema.now type_name.now place (token_of token.entry)) }
{
    match place {
        Opening::GroupOpen => field_step(alloc, schema, type_name, token),
        Opening::Bar => opening_on(Opening::Bar, cue_of(&token)),
        Opening::All => opening_on(Opening::All, cue_of(&token)),
        Opening::AllOpen => opening_on(Opening::AllOpen, cue_of(&token)),
        Opening::Group => opening_on(Opening::Group, cue_of(&token)),
    }
}

/// What is read with one token more of `)each(output(`, before the last.
fn middle_next(place: Middle, cue: Cue) -> Option<Middle>
    ensures { result ≡ middle_next place cue }
{
    match (place, cue) {
        (Middle::Field, Cue::Close) => Some(Middle::Close),
        (Middle::Close, Cue::Each) => Some(Middle::Each),
        (Middle::Each, Cue::Open) => Some(Middle::EachOpen),
        (Middle::EachOpen, Cue::Output) => Some(Middle::Output),
        _ => None,
    }
}

/// A token between the field and the outputs.
fn middle_step(alloc: Global, field: TextValue, place: Middle, cue: Cue) -> Result<Grouping, Stop>
    ensures { Goes group_of result (middle_step field place cue) }
{
    match (place, cue) {
        (Middle::Output, Cue::Open) => Ok(Grouping::Listing {
            field,
            outputs: Vec::new(alloc),
            place: Listing::Want,
        }),
        _ => match middle_next(place, cue) {
            Some(place) => Ok(Grouping::Middle { field, place }),
            None => Err(Stop::Refused),
        },
    }
}

/// An output of a field, where some field is left for it.
fn fold_if(schema: &Schema, type_name: &str, outputs: &[OutputKind], fold: Fold) -> Option<Listing>
    ensures { result ≡ fold_if schema.now type_name.now outputs.now fold }
{
    if some_free(schema, type_name, outputs, fold) {
        Some(Listing::Fold(fold))
    } else {
        None
    }
}

/// The word of an output.
fn want_next(schema: &Schema, type_name: &str, outputs: &[OutputKind], cue: Cue) -> Option<Listing>
    ensures { result ≡ want_next schema.now type_name.now outputs.now cue }
{
    match cue {
        Cue::Count => {
            if is_counted(outputs) {
                None
            } else {
                Some(Listing::Count)
            }
        }
        Cue::Sum => fold_if(schema, type_name, outputs, Fold::Sum),
        Cue::Min => fold_if(schema, type_name, outputs, Fold::Min),
        Cue::Max => fold_if(schema, type_name, outputs, Fold::Max),
        _ => None,
    }
}

/// The field of an output.
fn argument_next(
    alloc: Global,
    schema: &Schema,
    type_name: &str,
    outputs: &[OutputKind],
    fold: Fold,
    token: Lexeme<'_>,
) -> Result<Listing, Stop>
    ensures { Goes (λ p. p) result (argument_next schema.now type_name.now outputs.now fold
        (token_of token.entry)) }
{
    match token {
        Lexeme::Word(field) => {
            if !is_free(fold, outputs, field, schema.field(type_name, field)) {
                return Err(Stop::Refused);
            }
            Ok(Listing::Closed(output_of(fold, kept(alloc, field)?)))
        }
        _ => Err(Stop::Refused),
    }
}

/// The bracket behind an output.
fn output_end(
    field: TextValue,
    outputs: Vec<OutputKind>,
    output: OutputKind,
    cue: Cue,
) -> Result<Grouping, Stop>
    ensures { Goes group_of result (output_end field outputs.items output cue) }
{
    if cue != Cue::Close {
        return Err(Stop::Refused);
    }
    let mut outputs = outputs;
    outputs.push(output)?;
    Ok(Grouping::Listing {
        field,
        outputs,
        place: Listing::Behind,
    })
}

/// A token behind an output.
fn behind_next(
    schema: &Schema,
    type_name: &str,
    field: TextValue,
    outputs: Vec<OutputKind>,
    cue: Cue,
) -> Result<Grouping, Stop>
    ensures { Goes group_of result (behind_next schema.now type_name.now field outputs.items cue) }
{
    match cue {
        Cue::Close => Ok(Grouping::Closing {
            group: GroupBy {
                field,
                outputs: OutputKinds::of(outputs),
            },
            place: Closing::Output,
        }),
        Cue::Comma => {
            if !some_left(schema, type_name, &outputs) {
                return Err(Stop::Refused);
            }
            Ok(Grouping::Listing {
                field,
                outputs,
                place: Listing::Want,
            })
        }
        _ => Err(Stop::Refused),
    }
}

/// The outputs with a place within them, where there is one.
fn listed(
    field: TextValue,
    outputs: Vec<OutputKind>,
    place: Option<Listing>,
) -> Result<Grouping, Stop>
    ensures { Goes group_of result (option_map (listing field outputs.items) place) }
{
    match place {
        Some(place) => Ok(Grouping::Listing {
            field,
            outputs,
            place,
        }),
        None => Err(Stop::Refused),
    }
}

/// The opening bracket of an output.
fn opened(cue: Cue, place: Listing) -> Option<Listing>
    ensures { result ≡ opened cue place }
{
    match cue {
        Cue::Open => Some(place),
        _ => None,
    }
}

/// The field of an output, within the outputs.
fn argument_step(
    alloc: Global,
    schema: &Schema,
    type_name: &str,
    field: TextValue,
    outputs: Vec<OutputKind>,
    fold: Fold,
    token: Lexeme<'_>,
) -> Result<Grouping, Stop>
    ensures { Goes group_of result (option_map (listing field outputs.items)
        (argument_next schema.now type_name.now outputs.items fold (token_of token.entry))) }
{
    let place = argument_next(alloc, schema, type_name, &outputs, fold, token)?;
    Ok(Grouping::Listing {
        field,
        outputs,
        place,
    })
}

/// A token within the outputs.
fn listing_step(
    alloc: Global,
    schema: &Schema,
    type_name: &str,
    field: TextValue,
    outputs: Vec<OutputKind>,
    place: Listing,
    token: Lexeme<'_>,
) -> Result<Grouping, Stop>
    ensures { Goes group_of result (listing_step schema.now type_name.now field outputs.items place
        (token_of token.entry)) }
{
    let cue = cue_of(&token);
    match place {
        Listing::Want => {
            let next = want_next(schema, type_name, &outputs, cue);
            listed(field, outputs, next)
        }
        Listing::Count => listed(
            field,
            outputs,
            opened(cue, Listing::Closed(OutputKind::Count)),
        ),
        Listing::Fold(fold) => listed(field, outputs, opened(cue, Listing::Argument(fold))),
        Listing::Argument(fold) => {
            argument_step(alloc, schema, type_name, field, outputs, fold, token)
        }
        Listing::Closed(output) => output_end(field, outputs, output, cue),
        Listing::Behind => behind_next(schema, type_name, field, outputs, cue),
    }
}

/// What is read with one bracket more of `)))`.
fn closing_next(place: Closing, cue: Cue) -> Option<Closing>
    ensures { result ≡ closing_next place cue }
{
    match (place, cue) {
        (Closing::Output, Cue::Close) => Some(Closing::Each),
        (Closing::Each, Cue::Close) => Some(Closing::All),
        _ => None,
    }
}

/// A token behind the outputs.
fn closing_step(group: GroupBy, place: Closing, cue: Cue) -> Result<Grouping, Stop>
    ensures { Goes group_of result (closing_step group place cue) }
{
    match closing_next(place, cue) {
        Some(place) => Ok(Grouping::Closing { group, place }),
        None => Err(Stop::Refused),
    }
}

/// What was read with one token more.
pub fn group_next(
    alloc: Global,
    schema: &Schema,
    type_name: &str,
    grouping: Grouping,
    token: Lexeme<'_>,
) -> Result<Grouping, Stop>
    ensures { Goes group_of result (group_next schema.now type_name.now (group_of grouping)
        (token_of token.entry)) }
{
    match grouping {
        Grouping::Opening(place) => opening_step(alloc, schema, type_name, place, token),
        Grouping::Middle { field, place } => middle_step(alloc, field, place, cue_of(&token)),
        Grouping::Listing {
            field,
            outputs,
            place,
        } => listing_step(alloc, schema, type_name, field, outputs, place, token),
        Grouping::Closing { group, place } => closing_step(group, place, cue_of(&token)),
    }
}

/// How documents are grouped, where that is read to its end.
pub fn group_says(grouping: Grouping) -> Option<GroupBy>
    ensures { result ≡ group_says (group_of grouping) }
{
    match grouping {
        Grouping::Closing { group, place } => {
            if place == Closing::All {
                Some(group)
            } else {
                None
            }
        }
        _ => None,
    }
}

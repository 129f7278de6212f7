ghost use Rattle.std.specs.Prelude.{◌≡◌, ◌&&◌, Some, option_map};
ghost use Rattle.serde_json.specs.Find.{as_bool, as_str};
ghost use Rattle.line_values.specs.View.{view};
ghost use Rattle.feed_lines.specs.Meaning.{create_in, via_in, text_condition, condition_said, before_size, cause_by, fault_by, Gives};
ghost use Rattle.feed_lines.specs.declared.command.LineFault.TheVariants as line_fault;
ghost use Rattle.feed_lines.specs.Tests.{or_false, is_text_if, is_truth_if, is_node_if};

use crate::command::{Cause, LineFault};
use crate::values::node_of;
use doc_selection::{Selection, SelectionFault};
use doc_types::Schema;
use line_values::LineValue;
use std::alloc::Global;

/// A bad line of this cause.
pub fn bad(cause: Cause) -> LineFault
    ensures { result ≡ line_fault.BadLine cause }
{
    LineFault::BadLine { cause }
}

/// Whether a value is a text, if it is there.
fn is_text_if(value: Option<&LineValue<'_>>) -> bool
    ensures { result ≡ is_text_if (option_map (λ v. view v.now) value.entry) }
{
    match value {
        Some(value) => value.as_str().is_some(),
        None => true,
    }
}

/// Whether a value is a truth value, if it is there.
fn is_truth_if(value: Option<&LineValue<'_>>) -> bool
    ensures { result ≡ is_truth_if (option_map (λ v. view v.now) value.entry) }
{
    match value {
        Some(value) => value.as_bool().is_some(),
        None => true,
    }
}

/// Whether a value is the number of a distributor, if it is there.
fn is_node_if(value: Option<&LineValue<'_>>) -> bool
    ensures { result ≡ is_node_if (option_map (λ v. view v.now) value.entry) }
{
    match value {
        Some(value) => node_of(value).is_some(),
        None => true,
    }
}

/// Whether what `condition`, `create` and `via` say is a text, a truth value and the number of a distributor,
/// where they are there.
pub fn are_options<'a>(
    condition: Option<&LineValue<'a>>,
    create: Option<&LineValue<'a>>,
    via: Option<&LineValue<'a>>,
) -> bool
    ensures { result ≡ (is_text_if (option_map (λ v. view v.now) condition.entry)
        && is_truth_if (option_map (λ v. view v.now) create.entry)
        && is_node_if (option_map (λ v. view v.now) via.entry)) }
{
    is_text_if(condition) && is_truth_if(create) && is_node_if(via)
}

/// The distributor that `via` names; none where it isn't there.
pub fn via_in(value: Option<&LineValue<'_>>) -> Option<u8>
    ensures { result ≡ via_in (option_map (λ v. view v.now) value.entry) }
{
    match value {
        Some(value) => node_of(value),
        None => None,
    }
}

/// What `create` says; it is false where it isn't there.
pub fn create_in(value: Option<&LineValue<'_>>) -> bool
    ensures { result ≡ create_in (option_map (λ v. view v.now) value.entry) }
{
    match value {
        Some(value) => or_false(value.as_bool()),
        None => false,
    }
}

/// A truth value; false where it isn't there.
pub fn or_false(value: Option<bool>) -> bool
    ensures { result ≡ or_false value }
{
    match value {
        Some(value) => value,
        None => false,
    }
}

/// The condition that a text says.
fn text_condition(
    alloc: Global,
    text: &str,
    schema: &Schema,
) -> Result<Option<Selection>, LineFault>
    ensures { Gives result (text_condition schema.now (Some text.now)) }
{
    match Selection::parse(alloc, text, schema) {
        Ok(selection) => Ok(Some(selection)),
        Err(SelectionFault::BadSelection { .. }) => Err(LineFault::BadLine {
            cause: Cause::Condition,
        }),
        Err(SelectionFault::NoMemory) => Err(LineFault::NoMemory),
    }
}

/// The condition that a value says, if it is there.
pub fn condition_said(
    alloc: Global,
    value: Option<&LineValue<'_>>,
    schema: &Schema,
) -> Result<Option<Selection>, LineFault>
    ensures { Gives result (condition_said schema.now (option_map (λ v. view v.now) value.entry)) }
{
    let Some(value) = value else {
        return Ok(None);
    };
    match value.as_str() {
        Some(text) => text_condition(alloc, text, schema),
        None => Err(LineFault::BadLine {
            cause: Cause::Condition,
        }),
    }
}

/// The cause that comes first where `condition`, `create` or `via` is wrong too.
fn before_size(cause: Cause) -> Cause
    ensures { result ≡ before_size cause }
{
    match cause {
        Cause::Size => Cause::Value,
        other => other,
    }
}

/// The cause that comes first, by whether `condition`, `create` and `via` are right.
fn cause_by(right: bool, cause: Cause) -> Cause
    ensures { result ≡ cause_by right cause }
{
    if right { cause } else { before_size(cause) }
}

/// The same of a fault.
pub fn fault_by(right: bool, fault: LineFault) -> LineFault
    ensures { result ≡ fault_by right fault }
{
    match fault {
        LineFault::BadLine { cause } => LineFault::BadLine {
            cause: cause_by(right, cause),
        },
        LineFault::NoMemory => LineFault::NoMemory,
    }
}
